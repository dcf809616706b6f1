//! What a script is played to, and how it is told, before its first line.

ghost use Rattle.std.specs.Prelude.{◌≡◌, IfErr, IfOk};
ghost use Rattle.xp_exchange.specs.Play.{opened, start};
ghost use Rattle.xp_exchange.specs.declared.fault.ReplayFault.TheVariants.{Memory};
ghost use Rattle.xp_subs.specs.Tables.{line_count};
ghost use Rattle.xp_transcript.specs.Telling.{first_state};

use crate::form::Form;
use crate::teller::Teller;
use crate::transcript::Transcript;
use std::alloc::Global;
use xp_core::Core;
use xp_exchange::{ReplayFault, ScriptPlayer};
use xp_script::NamedTables;
use xp_subs::Subs;

/// Opens an exchange, of which nothing is told yet. Lines of its script may bring the named subscriptions into force.
pub(crate) fn open<'s, 'n>(
    alloc: Global,
    form: Form,
    subs: Subs,
    named: &'s [NamedTables<'n>],
) -> Result<Transcript<'s, 'n>, ReplayFault>
    ensures opened { IfOk result (λ transcript. transcript ≡ first_state form subs named.now) }
    ensures refused { IfErr result (λ fault. fault ≡ Memory) }
{
    let lines = count_lines(&subs);
    let teller = Teller::new(alloc, form, lines)?;
    let player = open_player(alloc, subs, named)?;
    Ok(Transcript::new(alloc, player, teller))
}

/// How many lines there are, at most 4,096.
fn count_lines(subs: &Subs) -> u16
    ensures { result ≡ line_count subs.now }
{
    subs.counts().lines as u16
}

/// Opens an exchange to which a script can be played.
fn open_player<'s, 'n>(
    alloc: Global,
    subs: Subs,
    named: &'s [NamedTables<'n>],
) -> Result<ScriptPlayer<'s, 'n>, ReplayFault>
    ensures opened { IfOk result (λ player. player ≡ start (opened subs) named.now) }
    ensures refused { IfErr result (λ fault. fault ≡ Memory) }
{
    let core = Core::new(alloc, subs)?;
    match ScriptPlayer::new(alloc, core, named) {
        Ok(player) => Ok(player),
        Err(_) => Err(ReplayFault::Memory),
    }
}
