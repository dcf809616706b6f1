//! Replays a whole script, which a reader gives in pieces.

ghost use Rattle.std.specs.Prelude.{◌≡◌, ◌+◌, ◌<◌, ◌≤◌, ◌^◌, ℕ, List, [], ◌∷◌, ◌++◌, IfOk, IfErr, IfSome, OnOk, length};
ghost use Rattle.std.specs.Io.KnownBytes.{Appends};
ghost use Rattle.xp_exchange.specs.steps.Replaying.{Took, Ended, Finished, Overflows, ReplaysFrom};
ghost use Rattle.xp_exchange.specs.WholeScript.{Replays, ReplaysAlone};
ghost use Rattle.xp_exchange.specs.Splitting.{HasNoFeed};

use crate::fault::ReplayFault;
use crate::playing::ScriptPlayer;
use memchr::memchr;
use std::alloc::{Allocator, Global};
use std::io::{ErrorKind, Read, Write};
use std::marker::Model;
use xp_core::Core;
use xp_script::{MAX_LINE_OCTETS, NamedTables};
use xp_subs::Subs;

/// After this many reads the replay gives up.
const MOST_READS: u32 = 1_000_000_000;

/// The most octets that one read takes.
const PIECE: usize = 4096;

const LINE_FEED: u8 = b'\n';

/// The result of a replay, and the exchange afterwards.
#[derive(Drop)]
pub struct Replayed<A: Allocator = Global> {
    pub ended: Result<(), ReplayFault>,
    pub core: Core<A>,
}

/// Opens an exchange and replays a script on it, as `replay_on` does. Lines of the script may bring the named subscriptions
/// into force.
///
/// # Errors
///
/// Those of `replay_on`, with the same promises. `Memory` also if there is none to open the exchange. Then nothing is read
/// and nothing is written.
pub fn replay<A: Allocator + Copy, R: Read + Drop, W: Write>(
    alloc: A,
    subs: Subs,
    named: &[NamedTables<'_>],
    mut reader: R,
    writer: &mut W,
) -> Result<(), ReplayFault>
    ensures { IfSome (R.remaining reader) (λ script. (text : List ℕ) × Appends (W.contents writer.old) (W.contents writer.new) text × ReplaysAlone A subs named.now script result text) }
{
    let core = Core::new(alloc, subs)?;
    let Replayed { ended, core } = replay_on(alloc, core, named, &mut reader, writer);
    drop(core);
    ended
}

/// Replays a script: plays its lines in turn to an exchange, and writes the text of what the exchange sends and records.
/// It writes the text of a line before it plays the next. A line `tables NAME` brings the subscriptions of that name, among
/// `named`, into force. Lines in service that go are given up before that, the lowest first, with all that this sends and records.
///
/// # Errors
///
/// The replay stops at one line. All lines before it are played, and their text is written whole, whatever the error.
/// What is done and written of the line itself depends on the error:
///
/// - `Script`, with the number of the line: it is not a line of a script. Nothing of it is done or written.
/// - `Lay` or `Reload`, with the number of the line: the subscriptions that it names cannot come into force now. Nothing of it is
///   done or written.
/// - `Read`: the reader failed, or 1,000,000,000 reads did not end the script. Nothing is done or written of the line
///   whose end was not read.
/// - `Journal`: the history has fewer than four places left for the next event of the line; where the line brings
///   subscriptions into force, fewer than that and one for each line that goes. The text of the events before that one is
///   written whole.
/// - `Memory`: no memory was left, and one of three holds. Nothing of the line is done or written. Or the exchange
///   refused the next event of the line, and the text of the events before that one is written whole. Or the text of
///   the last entry could not be made: this entry is of the line, and no other text is missing.
/// - `Write`: the writer failed. The first events of the line are done, perhaps all, and a prefix of their text is
///   written.
pub fn replay_on<A: Allocator + Copy, R: Read, W: Write>(
    alloc: A,
    core: Core<A>,
    named: &[NamedTables<'_>],
    reader: &mut R,
    writer: &mut W,
) -> Replayed<A>
    ensures { IfSome (R.remaining reader.old) (λ script. (text : List ℕ) × Appends (W.contents writer.old) (W.contents writer.new) text × Replays core named.now script result.ended (R.remaining reader.new) result.core text) }
{
    match UnfinishedScript::new(alloc, core, named) {
        Ok(mut script) => {
            let ended = script.read_all(reader, writer);
            let core = script.playing.into_core();
            Replayed { ended, core }
        }
        Err(core) => {
            let ended = Err(ReplayFault::Memory);
            Replayed { ended, core }
        }
    }
}

/// A script of which a part was read.
#[derive(Drop)]
struct UnfinishedScript<'s, 'n, A: Allocator = Global> {
    playing: ScriptPlayer<'s, 'n, A>,
    /// The octets that were read of the line that is not over.
    line: Vec<u8, A>,
    /// The number of that line.
    number: u64,
}

impl<'s, 'n, A: Allocator> Model for UnfinishedScript<'s, 'n, A> {
    ghost use Rattle.std.specs.Prelude.{◌≤◌, length};
    ghost use Rattle.xp_exchange.specs.steps.Replaying.{Progress};
    ghost use Rattle.xp_exchange.specs.Splitting.{HasNoFeed};

    ghost Value = { Progress A };

    ghost view = { λ r. record { state = r.playing; line = r.line.items; number = r.number } };

    ghost invariant = { λ r. HasNoFeed r.line.items };
}

impl<'s, 'n, A: Allocator + Copy> UnfinishedScript<'s, 'n, A> {
    ghost use Rattle.xp_exchange.specs.Play.{start};

    fn new(
        alloc: A,
        core: Core<A>,
        named: &'s [NamedTables<'n>],
    ) -> Result<UnfinishedScript<'s, 'n, A>, Core<A>>
        ensures ok { IfOk result (λ script. script ≡ record { state = start core named.now; line = []; number = 1 }) }
        ensures err { IfErr result (λ back. back ≡ core) }
    {
        let playing = ScriptPlayer::new(alloc, core, named)?;
        Ok(UnfinishedScript {
            playing,
            line: Vec::new(alloc),
            number: 1,
        })
    }

    /// Reads the script to its end, and plays its lines.
    fn read_all<R: Read, W: Write>(
        &mut self,
        reader: &mut R,
        writer: &mut W,
    ) -> Result<(), ReplayFault>
        requires number { self.old.number ≤ 1 }
        requires line { HasNoFeed self.old.line }
        ensures { IfSome (R.remaining reader.old) (λ octets. (text : List ℕ) × Appends (W.contents writer.old) (W.contents writer.new) text × ReplaysFrom self.old octets result (R.remaining reader.new) self.new.state.exchange text) }
    {
        let mut piece = [0; PIECE];
        for _ in 0..MOST_READS {
            match reader.read(&mut piece) {
                Ok(0) => return self.finish(writer),
                Ok(count) => self.take(&piece[..count], writer)?,
                Err(error) => {
                    if error.kind() != ErrorKind::Interrupted {
                        return Err(ReplayFault::Read);
                    }
                }
            }
        }
        Err(ReplayFault::Read)
    }

    /// Takes the next octets of the script, and plays the lines that they end.
    fn take<W: Write>(&mut self, octets: &[u8], writer: &mut W) -> Result<(), ReplayFault>
        requires number { self.old.number + length octets.now < 2 ^ 64 }
        requires line { HasNoFeed self.old.line }
        ensures took { (text : List ℕ) × Appends (W.contents writer.old) (W.contents writer.new) text × Took self.old octets.now result self.new text }
        ensures number { OnOk result (self.new.number ≤ self.old.number + length octets.now) }
        ensures line { OnOk result (HasNoFeed self.new.line) }
    {
        let mut rest = octets;
        while let Some(end) = memchr(LINE_FEED, rest) {
            self.add(&rest[..end])?;
            self.end_line(writer)?;
            rest = rest.split_at(end + 1).1;
        }
        self.add(rest)
    }

    /// Plays the line, which is over, and begins the next.
    fn end_line<W: Write>(&mut self, writer: &mut W) -> Result<(), ReplayFault>
        requires { self.old.number + 1 < 2 ^ 64 }
        ensures ended { (text : List ℕ) × Appends (W.contents writer.old) (W.contents writer.new) text × Ended self.old result self.new text }
        ensures line { HasNoFeed self.old.line }
    {
        self.playing.play(self.number, &self.line, writer)?;
        self.line.clear();
        self.number += 1;
        Ok(())
    }

    /// Adds octets to the line.
    fn add(&mut self, octets: &[u8]) -> Result<(), ReplayFault>
        requires { HasNoFeed octets.now }
        ensures added { OnOk result (self.new ≡ record self.old { line = self.old.line ++ octets.now }) }
        ensures refused { IfErr result (λ fault. Overflows self.old octets.now fault) }
        ensures kept { self.new.state ≡ self.old.state }
        ensures line { HasNoFeed self.old.line }
    {
        if self.line.len() + octets.len() > MAX_LINE_OCTETS {
            return Err(ReplayFault::Script(self.number));
        }
        self.line.extend_from_slice(octets)?;
        Ok(())
    }

    /// Plays the last line, which may lack its line feed, and flushes the writer.
    fn finish<W: Write>(&mut self, writer: &mut W) -> Result<(), ReplayFault>
        ensures finished { (text : List ℕ) × Appends (W.contents writer.old) (W.contents writer.new) text × Finished self.old result self.new text }
        ensures line { HasNoFeed self.old.line }
    {
        self.playing.play(self.number, &self.line, writer)?;
        match writer.flush() {
            Ok(()) => Ok(()),
            Err(_) => Err(ReplayFault::Write),
        }
    }
}
