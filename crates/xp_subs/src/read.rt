//! Reads the subscriptions from the text of a file.
ghost use Rattle.std.specs.Prelude.{◌≡◌, [], ◌≢◌, ◌<◌, ◌≤◌, ◌+◌, ◌++◌, All, length, true, Ok, Err, OnOk, IfOk, IfErr};
ghost use Rattle.xp_file.specs.declared.fault.SubscriptionFault.TheVariants.{Memory as OutOfMemory};
ghost use Rattle.std.specs.List.{list_all};
ghost use Rattle.std.specs.Set.{distinct_count};
ghost use Rattle.xp_file.specs.Entries.{AreLimits, IsStationEntry};
ghost use Rattle.xp_file.specs.Routers.{IsPort};
ghost use Rattle.xp_file.specs.SubscriptionFile.{file_in};
ghost use Rattle.xp_subs.specs.Bounds.{most_lines};
ghost use Rattle.xp_subs.specs.Built.{SetsUp, tables_of, named_groups, mentions, stations_from, lines_from, spare_places};
ghost use Rattle.xp_subs.specs.steps.Checked.{IsChecked};
ghost use Rattle.xp_subs.specs.steps.WithinLimits.{AreWithinLimits};
ghost use Rattle.xp_subs.specs.Passes.{has_own_indexes, line_total};
ghost use Rattle.xp_subs.specs.steps.Passes.{nothing_used, with_stations};
ghost use Rattle.xp_subs.specs.Tables.{group_count, same};

use crate::build;
use crate::default_callers::default_callers_differ;
use crate::indexes::all_have_own_indexes;
use crate::limits::file_over;
use crate::line::Line;
use crate::station::Station;
use crate::subs::Subs;
use crate::used_values::UsedValues;
use indexmap::IndexSet;
use std::alloc::Global;
use xp_file::{Key, Name, SubscriptionFault, SubscriptionFile};

impl Subs {
    /// Reads the text of a subscription file.
    ///
    /// # Errors
    ///
    /// The fault of the first check that fails. Each check goes over the whole file, in this order:
    ///
    /// - `Toml` for the text;
    /// - `Field` for the values of its keys;
    /// - `Limit` for the numbers of stations, lines and groups, and of the places reserved for further lines;
    /// - `TwiceUsed` for addresses, names and ports;
    /// - `TwiceUsed(Key::DefaultCaller)` for the default callers of routers;
    /// - `Index` for the groups of a station.
    ///
    /// `Memory` if an allocation fails.
    pub fn read(alloc: Global, text: &str) -> Result<Subs, SubscriptionFault>
        ensures ok { IfOk result (λ subs. SetsUp text.now (Ok subs)) }
        ensures refused { IfErr result (λ fault. fault ≢ OutOfMemory → SetsUp text.now (Err fault)) }

        // The groups are counted by name. Each name counts once in the whole file.
        ensures groups { IfOk result (λ subs. IfOk (file_in text.now) (λ file. group_count subs ≡ distinct_count same (named_groups file.stations))) }
    {
        let file = SubscriptionFile::read(alloc, text)?;
        let mut uses = UsedValues::new(alloc);
        let parts = parts_of(alloc, &file, &mut uses)?;
        Ok(put_together(file, uses, parts))
    }
}

/// Checks the file, and builds its groups, its stations and its lines.
fn parts_of(
    alloc: Global,
    file: &SubscriptionFile,
    uses: &mut UsedValues,
) -> Result<(IndexSet<Name>, Vec<Station>, Vec<Line>), SubscriptionFault>
    requires each { All IsStationEntry file.now.stations }
    requires begun { uses.old ≡ nothing_used }
    ensures checked { OnOk result (IsChecked file.now uses.new) }
    ensures names { IfOk result (λ parts. parts.0.keys ≡ mentions [] file.now.stations) }
    ensures stations { IfOk result (λ parts. parts.1.items ≡ stations_from parts.0.keys 0 file.now.stations) }
    ensures lines { IfOk result (λ parts. parts.2.items ≡ lines_from 0 file.now.stations ++ spare_places file.now) }
    ensures refused { IfErr result (λ fault. fault ≢ OutOfMemory → (text : _) → file_in text ≡ Ok file.now → SetsUp text (Err fault)) }
{
    check(file, uses)?;
    let known = build::group_names(alloc, &file.stations)?;
    let stations = build::stations(alloc, &file.stations, &known)?;
    let lines = build::places(alloc, file)?;
    Ok((known, stations, lines))
}

/// Checks the limits of the file, the values that it uses, its default callers and the indexes of its groups.
fn check(file: &SubscriptionFile, uses: &mut UsedValues) -> Result<(), SubscriptionFault>
    requires each { All IsStationEntry file.now.stations }
    requires begun { uses.old ≡ nothing_used }
    ensures checked { OnOk result (IsChecked file.now uses.new) }
    ensures refused { IfErr result (λ fault. fault ≢ OutOfMemory → (text : _) → file_in text ≡ Ok file.now → SetsUp text (Err fault)) }
{
    if let Some(key) = file_over(file) {
        return Err(SubscriptionFault::Limit(key));
    }
    uses.enter_stations(&file.stations)?;
    if !default_callers_differ(&file.stations) {
        return Err(SubscriptionFault::TwiceUsed(Key::DefaultCaller));
    }
    if !all_have_own_indexes(&file.stations) {
        return Err(SubscriptionFault::Index);
    }
    Ok(())
}

fn put_together(
    file: SubscriptionFile,
    uses: UsedValues,
    parts: (IndexSet<Name>, Vec<Station>, Vec<Line>),
) -> Subs
    requires fit { AreWithinLimits file.stations }
    requires some { 0 < length file.stations }
    requires limits { AreLimits file.segment_limit file.journal }
    requires port { IsPort file.xot_port }
    requires own { list_all has_own_indexes file.stations ≡ true }
    requires once { with_stations 0 0 file.stations nothing_used ≡ Ok uses }
    requires places { line_total file.stations + file.spare_lines + file.spare_lines_128 ≤ most_lines }
    requires names { parts.0.keys ≡ mentions [] file.stations }
    requires stations { parts.1.items ≡ stations_from parts.0.keys 0 file.stations }
    requires lines { parts.2.items ≡ lines_from 0 file.stations ++ spare_places file }
    ensures { result ≡ tables_of file }
{
    let (groups, stations, lines) = parts;
    Subs {
        stations,
        lines,
        groups,
        segment_limit: file.segment_limit,
        journal: file.journal,
        host: file.host,
        xot_port: file.xot_port,
        name: file.name,
        targets: uses.targets,
        names: uses.names,
        nobody: Station::nobody(),
    }
}
