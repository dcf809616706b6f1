//! Lays the lines of a newly read file over the places that the exchange has.
ghost use Rattle.std.specs.Prelude.{◌≡◌, ◌≢◌, ◌≤◌, ◌<◌, ◌+◌, IfOk, IfErr, OnOk, length};
ghost use Rattle.xp_subs.specs.declared.laid.LayFault.TheVariants.{Memory as OutOfMemory};
ghost use Rattle.xp_subs.specs.Laid.{IsLaidOver, CannotBeLaid};
ghost use Rattle.xp_subs.specs.Tables.{line_count, line_at};
ghost use Rattle.xp_subs.specs.steps.Places.{AllFit, AreHeld, Fills, Goes, IsLaid, fits, held_line, number_at, number_of, numbers_in, wants_place};

use crate::LineNo;
use crate::line::Line;
use crate::places::{NO_LINE, Places, same_modulus};
use crate::subs::Subs;
use std::alloc::{AllocError, Global};
use xp_file::Name;
use xp_packets::Modulus;

/// Why the lines of a file cannot stand at the places that an exchange has.
#[derive(Debug, Drop, PartialEq)]
pub enum LayFault {
    /// The line with this name has another modulus than its place.
    Modulus(Name),
    /// There is no place for the line with this name, which is new: the lines of its modulus are more than the places.
    Place(Name),
    /// An allocation failed.
    Memory,
}

impl From<AllocError> for LayFault {
    ghost use Rattle.std.specs.Prelude.{◌≡◌};

    ghost from_gives = { λ _ fault. fault ≡ OutOfMemory };

    fn from(_error: AllocError) -> LayFault {
        LayFault::Memory
    }
}

impl Subs {
    /// The subscriptions `next` with their lines at the places of these. A line whose name stays keeps its place. A line that
    /// is new takes the first free place of its modulus: one that was spare, or whose line goes. The places that are left over
    /// are spare.
    ///
    /// # Errors
    ///
    /// - `Modulus` if a line that stays has another modulus than before.
    /// - `Place` if a line that is new has no place.
    /// - `Memory` if an allocation fails.
    pub fn laid_over(&self, alloc: Global, next: Subs) -> Result<Subs, LayFault>
        ensures laid { IfOk result (λ laid. IsLaidOver self.now next laid) }
        ensures refused { IfErr result (λ fault. fault ≢ OutOfMemory → CannotBeLaid self.now next fault) }
    {
        match self.laid_lines(alloc, &next) {
            Ok((lines, places)) => Ok(next.moved(lines, &places)),
            Err(fault) => Err(fault),
        }
    }

    /// The lines of `next` at the places of these, and the place of each of them.
    fn laid_lines(&self, alloc: Global, next: &Subs) -> Result<(Vec<Line>, Vec<LineNo>), LayFault>
        ensures laid { IfOk result (λ laid. IsLaid self.now next.now laid.1.items laid.0.items) }
        ensures refused { IfErr result (λ fault. fault ≢ OutOfMemory → CannotBeLaid self.now next.now fault) }
    {
        self.check_moduli(next)?;
        let of_lines = self.numbers_in(alloc, &next.lines)?;
        let holders = next.numbers_in(alloc, &self.lines)?;
        let mut places = Places { of_lines, holders };
        self.fill(next, Modulus::Eight, &mut places)?;
        self.fill(next, Modulus::Long, &mut places)?;
        let lines = self.lines_at(alloc, &next.lines, &places.holders)?;
        Ok((lines, places.of_lines))
    }

    /// The numbers that the names of these lines have.
    fn numbers_in(&self, alloc: Global, lines: &[Line]) -> Result<Vec<LineNo>, AllocError>
        ensures { IfOk result (λ numbers. numbers.items ≡ numbers_in self.now lines.now) }
    {
        let mut numbers = Vec::with_capacity(alloc, lines.len())?;
        for line in lines {
            numbers.push(self.number_of(&line.name))?;
        }
        Ok(numbers)
    }

    fn number_of(&self, name: &Name) -> LineNo
        ensures { result ≡ number_of self.now name.now }
    {
        self.names.get(name).copied().unwrap_or(NO_LINE)
    }

    /// Checks that each line that stays has the modulus of its place.
    fn check_moduli(&self, next: &Subs) -> Result<(), LayFault>
        ensures fit { OnOk result (AllFit self.now next.now.lines) }
        ensures refused { IfErr result (CannotBeLaid self.now next.now) }
    {
        let _ = &self.lines;
        for line in &next.lines {
            if !self.fits(line) {
                return Err(LayFault::Modulus(line.name.copy()));
            }
        }
        Ok(())
    }

    fn fits(&self, line: &Line) -> bool
        ensures { result ≡ fits self.now line.now }
    {
        match self.names.get(&line.name) {
            Some(was) => same_modulus(self.modulus_of(*was), line.modulus),
            None => true,
        }
    }

    /// Gives a place to each line of this modulus that has none.
    fn fill(&self, next: &Subs, modulus: Modulus, places: &mut Places) -> Result<(), LayFault>
        requires { Fills self.now next.now modulus 0 0 places.old.of_lines.items places.old.holders.items }
        ensures filled { OnOk result ((from : _) × Fills self.now next.now modulus (line_count next.now) from places.new.of_lines.items places.new.holders.items) }
        ensures goes { OnOk result (Goes self.now next.now modulus places.old.of_lines.items places.old.holders.items places.new.of_lines.items places.new.holders.items) }
        ensures refused { IfErr result (CannotBeLaid self.now next.now) }
    {
        let mut from = 0;
        for line in 0..next.lines.len() {
            from = self.fill_line(next, modulus, line, from, places)?;
        }
        Ok(())
    }

    /// Gives a place to a line, if it is of this modulus and has none. All places of this modulus that come before `from` have
    /// lines; returns a further such number.
    fn fill_line(
        &self,
        next: &Subs,
        modulus: Modulus,
        line: usize,
        from: usize,
        places: &mut Places,
    ) -> Result<usize, LayFault>
        requires within { line < line_count next.now }
        requires fills { Fills self.now next.now modulus line from places.old.of_lines.items places.old.holders.items }
        ensures fills { IfOk result (λ further. Fills self.now next.now modulus (line + 1) further places.new.of_lines.items places.new.holders.items) }
        ensures goes { OnOk result (Goes self.now next.now modulus places.old.of_lines.items places.old.holders.items places.new.of_lines.items places.new.holders.items) }
        ensures refused { IfErr result (CannotBeLaid self.now next.now) }
    {
        let entry = &next.lines[line];
        if !self.wants_place(entry, modulus, places.of_lines[line]) {
            return Ok(from);
        }
        let Some(at) = places.free_from(&self.lines, modulus, from) else {
            return Err(LayFault::Place(entry.name.copy()));
        };
        places.put(line, at);
        Ok(at + 1)
    }

    fn wants_place(&self, line: &Line, modulus: Modulus, place: LineNo) -> bool
        ensures { result ≡ wants_place (line_count self.now) line.now modulus place }
    {
        !line.is_spare()
            && same_modulus(modulus, line.modulus)
            && usize::from(place) >= self.lines.len()
    }

    /// What stands at each place: the line that has it, or nothing.
    fn lines_at(
        &self,
        alloc: Global,
        next: &[Line],
        holders: &[LineNo],
    ) -> Result<Vec<Line>, AllocError>
        requires { length holders.now ≡ line_count self.now }
        ensures { IfOk result (λ lines. AreHeld self.now.lines next.now holders.now lines.items) }
    {
        let mut lines = Vec::with_capacity(alloc, self.lines.len())?;
        for (at, place) in self.lines.iter().enumerate() {
            lines.push(held_line(next, holders[at], place.modulus))?;
        }
        Ok(lines)
    }
}

fn held_line(lines: &[Line], holder: LineNo, modulus: Modulus) -> Line
    ensures { result ≡ held_line lines.now holder modulus }
{
    match lines.get(usize::from(holder)) {
        Some(line) => line.copy(),
        None => Line::spare_place(modulus),
    }
}
