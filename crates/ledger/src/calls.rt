// The calls on the tables, each as the ledger has it.
ghost use Rattle.std.specs.Prelude.{◌≡◌, is_some, is_ok, IfOk, count_by};
ghost use Rattle.std.specs.Option.{ok_or};
ghost use Rattle.ledger.specs.Ledger.{empty, holding, find, number_from, numbers_from, is_joint, is_brace, at_joint, Enters, Adds, Loads, Told, Notes, Withdraws};
ghost use Rattle.ledger.specs.declared.refusal.Refusal.TheVariants.{NumberOutside, Unknown};
ghost use Rattle.ledger.specs.declared.refusal.Place.TheVariants.{Joint as PlaceOfJoint, Brace as PlaceOfBrace};
ghost use Rattle.ledger.specs.Places.{Spotted, Stood};
ghost use Rattle.ledger.specs.Worsts.{reach, with_brace, WorstOf, Names};

use crate::entries::{Brace, Joint, Worst};
use crate::refusal::{Place, Refusal, Room};
use crate::tables::{MOST_BRACES, MOST_BRACES_AT_JOINT, MOST_JOINTS, Tables};
use records::limits::{BraceFigures, ChordFigures};
use records::record::{BraceRecord, Chord};
use std::alloc::{AllocError, Global};
use verdicts::force::Force;
use verdicts::forces::ForceFigures;
use verdicts::verdict::Verdict;

// The number of a joint or a brace. Not `TryFrom`: which of the two it is makes the refusal.
fn number_of(n: i64, place: Place) -> Result<u32, Refusal>
    ensures { result ≡ ok_or (number_from n) (NumberOutside place) }
{
    match n {
        1..=999 => Ok(n as u32),
        _ => Err(Refusal::NumberOutside(place)),
    }
}

// The numbers of a brace: its joint's, and its own.
fn numbers_of(joint: i64, brace: i64) -> Result<(u32, u32), Refusal>
    ensures { result ≡ numbers_from joint brace }
{
    Ok((
        number_of(joint, Place::Joint)?,
        number_of(brace, Place::Brace)?,
    ))
}

// How far up a verdict reaches: FAR beyond every end. An Option of the end would put none below every end.
#[derive(Clone, Copy, PartialEq, Eq, PartialOrd, Ord)]
enum Reach {
    End(u64),
    Far,
}

fn reach_of(verdict: Verdict) -> Reach
    ensures { result ≡ reach verdict }
{
    match verdict {
        Verdict::Pass(ends) | Verdict::Fail(ends) | Verdict::Near(ends) => Reach::End(ends.high),
        Verdict::Far(_) => Reach::Far,
    }
}

// The worst so far, with one more brace: it gives way only to a higher one.
fn keep(best: Option<Worst>, brace: Brace) -> Option<Worst>
    ensures { result ≡ with_brace best brace }
{
    match (best, brace.check) {
        (_, None) => best,
        (Some(worst), Some(verdict)) if reach_of(verdict) <= reach_of(worst.verdict) => best,
        (_, Some(verdict)) => Some(Worst {
            joint: brace.joint,
            brace: brace.number,
            verdict,
        }),
    }
}

impl Tables {
    pub fn new(heap: Global) -> Result<Tables, AllocError>
        ensures { IfOk result (λ t. holding t ≡ empty) }
    {
        let joints = Vec::with_capacity(heap, MOST_JOINTS)?;
        let braces = Vec::with_capacity(heap, MOST_BRACES)?;
        Ok(Tables { joints, braces })
    }

    fn joint_at(&self, number: u32) -> Result<usize, Refusal>
        ensures stands { is_ok result ≡ is_some (find (is_joint number) (holding self.now).joints) }
        ensures found { Spotted (is_joint number) (holding self.now).joints (Unknown PlaceOfJoint) result }
    {
        self.joints
            .iter()
            .position(|joint| joint.number == number)
            .ok_or(Refusal::Unknown(Place::Joint))
    }

    fn brace_at(&self, joint: u32, number: u32) -> Result<usize, Refusal>
        ensures stands { is_ok result ≡ is_some (find (is_brace joint number) (holding self.now).braces) }
        ensures found { Spotted (is_brace joint number) (holding self.now).braces (Unknown PlaceOfBrace) result }
    {
        self.braces
            .iter()
            .position(|brace| brace.joint == joint && brace.number == number)
            .ok_or(Refusal::Unknown(Place::Brace))
    }

    pub fn enter(&mut self, joint: i64, figures: ChordFigures) -> Result<(), Refusal>
        ensures { Enters joint figures (holding self.old) (holding self.new) result }
    {
        let number = number_of(joint, Place::Joint)?;
        if self.joint_at(number).is_ok() {
            return Err(Refusal::NumberInUse(Place::Joint));
        }
        if self.joints.len() >= MOST_JOINTS {
            return Err(Refusal::Full(Room::Joints));
        }
        let chord = Chord::new(figures)?;
        self.joints.push_reserved(Joint { number, chord });
        Ok(())
    }

    // How many braces stand at a joint.
    fn count_at(&self, joint: u32) -> usize
        ensures { result ≡ count_by (at_joint joint) (holding self.now).braces }
    {
        self.braces
            .iter()
            .filter(|brace| brace.joint == joint)
            .count()
    }

    // The two numbers are parameters and no struct, here and below: enter and withdraw have the joint's alone, and a refusal
    // names the one of the two that it is for.
    pub fn add(&mut self, joint: i64, brace: i64, figures: BraceFigures) -> Result<(), Refusal>
        ensures { Adds joint brace figures (holding self.old) (holding self.new) result }
    {
        let (n, number) = numbers_of(joint, brace)?;
        if self.brace_at(n, number).is_ok() {
            return Err(Refusal::NumberInUse(Place::Brace));
        }
        let i = self.joint_at(n)?;
        if self.braces.len() >= MOST_BRACES {
            return Err(Refusal::Full(Room::Braces));
        }
        if self.count_at(n) >= MOST_BRACES_AT_JOINT {
            return Err(Refusal::Full(Room::BracesAtJoint));
        }
        let figures = BraceRecord::new(self.joints[i].chord, figures)?;
        self.braces.push_reserved(Brace {
            joint: n,
            number,
            figures,
            force: None,
            check: None,
        });
        Ok(())
    }

    // The place of a brace that a call speaks of.
    #[tactic(auto, unfolding(crate::specs::Ledger::standing))]
    fn standing(&self, joint: i64, brace: i64) -> Result<usize, Refusal>
        ensures { Stood joint brace (holding self.now) result }
    {
        let (n, m) = numbers_of(joint, brace)?;
        let _ = self.joint_at(n)?;
        self.brace_at(n, m)
    }

    pub fn load(&mut self, joint: i64, brace: i64, figures: ForceFigures) -> Result<(), Refusal>
        ensures { Loads joint brace figures (holding self.old) (holding self.new) result }
    {
        let i = self.standing(joint, brace)?;
        let force = Force::new(figures)?;
        let held = self.braces[i];
        self.braces[i] = held.with_force(force);
        Ok(())
    }

    // What a check looks at: the brace and its force.
    pub fn loaded(&self, joint: i64, brace: i64) -> Result<(BraceRecord, Force), Refusal>
        ensures { Told joint brace (holding self.now) result }
    {
        let i = self.standing(joint, brace)?;
        let held = self.braces[i];
        let force = held.force.ok_or(Refusal::NotLoaded)?;
        Ok((held.figures, force))
    }

    // Writes down the answer of a check.
    pub fn note(&mut self, joint: i64, brace: i64, verdict: Verdict) -> Result<(), Refusal>
        ensures { Notes joint brace verdict (holding self.old) (holding self.new) result }
    {
        let i = self.standing(joint, brace)?;
        let held = self.braces[i];
        let _ = held.force.ok_or(Refusal::NotLoaded)?;
        self.braces[i] = held.with_check(verdict);
        Ok(())
    }

    pub fn withdraw(&mut self, joint: i64) -> Result<(), Refusal>
        ensures { Withdraws joint (holding self.old) (holding self.new) result }
    {
        let n = number_of(joint, Place::Joint)?;
        let i = self.joint_at(n)?;
        let _ = self.joints.remove(i);
        self.braces.retain(|brace| brace.joint != n);
        Ok(())
    }

    // In order of adding, keeping the first that reaches highest. It is an indexed `for`, and no fold, by a rule of the project.
    pub fn worst(&self) -> Result<Worst, Refusal>
        ensures worst { WorstOf (holding self.now).braces result }
        ensures names { Names (holding self.now) result }
    {
        let mut best = None;
        for i in 0..self.braces.len() {
            best = keep(best, self.braces[i]);
        }
        best.ok_or(Refusal::Unchecked)
    }
}
