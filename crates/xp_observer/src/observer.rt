//! What is kept to show an operator the exchange.

ghost use Rattle.std.specs.Prelude.{◌≡◌, IfOk, count_by, map};
ghost use Rattle.xp_observer.specs.Shown.{AreNamesInForce, AreShown, IsNamedStatusOf, IsShownAs, IsStatusOf, has_no_name, names_in, names_of};

use crate::calls::live_calls;
use crate::lines::NamedLine;
use crate::naming::{Naming, named_lines};
use crate::notes::{Notes, RunBegin};
use std::alloc::{AllocError, Global};
use std::marker::{Model, PhantomData};
use std::net::SocketAddr;
use xp_charge::Record;
use xp_console::{EndedCall, ExchangeStatus, LineStatus, ReloadCounts, Totals};
use xp_machine::LineView;
use xp_sink::ShownExchange;
use xp_subs::{LineNo, Subs};
use xp_view::ExchangeView;

/// The octets that the connections of all lines have moved.
#[derive(Clone, Copy, Default, PartialEq, Eq)]
pub struct Traffic {
    pub received: u64,
    pub sent: u64,
}

/// What is kept to show an operator the exchange that N names: the names and addresses of its lines, and notes of their peers and
/// routers, the last records, and sums over all of them. Contracts see how the lines are named: as subscriptions name them that have
/// been in force.
#[derive(Drop)]
pub struct Observer<N: ShownExchange> {
    /// The moment at which the exchange began to serve, in seconds since 1970.
    started: u64,
    lines: Vec<NamedLine>,
    notes: Notes,
    reloads: ReloadCounts,
    exchange: PhantomData<N>,
}

impl<N: ShownExchange> Model for Observer<N> {
    ghost use Rattle.std.specs.Prelude.{List, map};
    ghost use Rattle.xp_observer.specs.Shown.{AreNamesInForce, LineNames, names_in};

    ghost Value = { List LineNames };

    ghost view = { λ observer. map names_in observer.lines.items };

    ghost invariant = { λ observer. AreNamesInForce N.tables (map names_in observer.lines.items) };
}

impl<N: ShownExchange> Observer<N> {
    /// The observer of an exchange that is opened with these subscriptions, whose run begins so.
    ///
    /// # Errors
    ///
    /// `AllocError` if an allocation fails.
    #[tactic(auto, using(crate::proofs::Opening::named_at_first))]
    pub fn new(alloc: Global, subs: &Subs, begin: RunBegin) -> Result<Observer<N>, AllocError>
        requires { N.tables ≡ subs.now }
        ensures { IfOk result (λ observer. observer ≡ names_of subs.now) }
    {
        let lines = named_lines(alloc, subs)?;
        let notes = Notes::new(alloc, subs, begin)?;
        Ok(Observer {
            started: begin.started,
            lines,
            notes,
            reloads: ReloadCounts::default(),
            exchange: PhantomData,
        })
    }

    /// Takes note that other subscriptions came into force at this moment, in seconds since 1970: from now on the lines are named as
    /// they name them. What was counted of a station goes on where they have a station of its address, and what is known of a router
    /// where they have it. A line that is new is out of service since now.
    pub fn rename(&mut self, naming: Naming, now: u64)
        requires { AreNamesInForce N.tables naming }
        ensures { self.new ≡ naming }
    {
        let Naming {
            lines,
            mut stations,
            mut routers,
        } = naming;
        stations.go_on(&self.notes.stations);
        routers.go_on(&self.notes.routers);
        self.notes.stations = stations;
        self.notes.routers = routers;
        self.notes.begin_anew(&self.lines, &lines, now);
        self.lines = lines;
        self.reloads.done = self.reloads.done.saturating_add(1);
        self.reloads.last = Some(now);
    }

    /// Takes note that a reload was refused.
    pub fn reload_refused(&mut self)
        ensures { self.new ≡ self.old }
    {
        self.reloads.refused = self.reloads.refused.saturating_add(1);
    }

    /// Takes note that a line has a connection from or to this peer.
    pub fn came_up(&mut self, line: LineNo, peer: SocketAddr)
        ensures { self.new ≡ self.old }
    {
        self.notes.set_peer(line, Some(peer));
    }

    /// Takes note that a line has lost its connection.
    pub fn went_down(&mut self, line: LineNo)
        ensures { self.new ≡ self.old }
    {
        self.notes.set_peer(line, None);
    }

    /// Takes note that a line behind a router has a connection that was made to the router, which is this peer.
    pub fn router_connected(&mut self, line: LineNo, peer: SocketAddr)
        ensures { self.new ≡ self.old }
    {
        self.notes.routers.connected(line);
        self.notes.set_peer(line, Some(peer));
    }

    /// Takes note that no connection to the router of a line could be made, at this moment in seconds since 1970.
    pub fn router_failed(&mut self, line: LineNo, now: u64)
        ensures { self.new ≡ self.old }
    {
        self.notes.routers.failed(line, now);
    }

    /// Takes note that a call of a router was refused with this cause, since no line took it.
    pub fn router_refused(&mut self, cause: u8)
        ensures { self.new ≡ self.old }
    {
        self.notes.router_refusals.count(cause);
    }

    /// Takes note of the records of calls that have ended, while the lines are named as they were as the calls ended.
    pub fn note_ended(&mut self, records: &[Record])
        ensures { self.new ≡ self.old }
    {
        self.notes.note_ended(&self.lines, records);
    }

    /// What is shown of the exchange at this moment, in seconds since 1970, where this can be seen of it, so many records wait to be
    /// kept, and the connections have moved this.
    ///
    /// # Errors
    ///
    /// `AllocError` if an allocation fails.
    pub fn status(
        &mut self,
        alloc: Global,
        now: u64,
        view: &ExchangeView,
        waiting: usize,
        traffic: Traffic,
    ) -> Result<ExchangeStatus, AllocError>
        ensures shows { IfOk result (IsStatusOf self.old view.now) }
        ensures named { IfOk result (IsNamedStatusOf N.tables view.now) }
        ensures same { self.new ≡ self.old }
        ensures moment { IfOk result (λ status. status.moment ≡ now) }
        ensures waiting { IfOk result (λ status. status.totals.records_waiting ≡ waiting) }
    {
        self.notes.see(now, view);
        let calls = live_calls(alloc, &self.lines, view, now)?;
        let totals = totals_of(&self.notes, view, calls.len(), waiting, traffic);
        Ok(ExchangeStatus {
            started: self.started,
            moment: now,
            lines: line_statuses(alloc, &self.lines, &self.notes, view)?,
            spare_lines: spare_count(&self.lines) as u64,
            calls,
            recent: recent_calls(alloc, &self.notes)?,
            stations: self.notes.stations.calls(alloc)?,
            totals,
            reloads: self.reloads,
        })
    }
}

/// How many places are spare.
fn spare_count(lines: &[NamedLine]) -> usize
    ensures { result ≡ count_by has_no_name (map names_in lines.now) }
{
    lines.iter().filter(|line| line.is_spare()).count()
}

/// What is shown of each line, in order. Spare places are not shown.
fn line_statuses(
    alloc: Global,
    lines: &[NamedLine],
    notes: &Notes,
    view: &ExchangeView,
) -> Result<Vec<LineStatus>, AllocError>
    ensures { IfOk result (λ statuses. AreShown (map names_in lines.now) view.now.lines.items statuses.items) }
{
    let count = lines.len().min(view.lines.len());
    let mut statuses = Vec::with_capacity(alloc, count)?;
    for place in 0..count {
        if !lines[place].is_spare() {
            let seen = view.lines[place].line;
            let status = line_status(alloc, &lines[place], notes, place, seen)?;
            statuses.push(status)?;
        }
    }
    Ok(statuses)
}

/// What is shown of the line at this place.
fn line_status(
    alloc: Global,
    line: &NamedLine,
    notes: &Notes,
    place: usize,
    seen: LineView,
) -> Result<LineStatus, AllocError>
    ensures { IfOk result (IsShownAs (names_in line.now) seen) }
{
    let unreachable_since = notes.routers.unreachable_since(place);
    line.status(alloc, notes.of_line(place), unreachable_since, seen)
}

/// The calls that ended last, the latest last.
fn recent_calls(alloc: Global, notes: &Notes) -> Result<Vec<EndedCall>, AllocError> {
    let mut recent = Vec::with_capacity(alloc, notes.ended_last.len())?;
    for call in &notes.ended_last {
        recent.push(call.shown(alloc)?)?;
    }
    Ok(recent)
}

/// The sums over all calls, of which so many are live.
fn totals_of(
    notes: &Notes,
    view: &ExchangeView,
    live: usize,
    waiting: usize,
    traffic: Traffic,
) -> Totals
    ensures events { result.events ≡ view.now.entries }
    ensures stalls { result.stalls ≡ view.now.stalls }
    ensures waiting { result.records_waiting ≡ waiting }
{
    Totals {
        calls: notes.ended.saturating_add(live as u64),
        refused: notes.refused,
        router_refusals: notes.router_refusals,
        router_failures: notes.routers.failures,
        segments_from_callers: notes.from_callers,
        segments_from_called: notes.from_called,
        events: view.entries,
        stalls: view.stalls,
        records_waiting: waiting as u64,
        partial_records: notes.partial_records,
        octets_received: traffic.received,
        octets_sent: traffic.sent,
    }
}
