// The machine: its state, and its steps.
ghost use Rattle.std.specs.Prelude.{◌≡◌, ◌<◌, ℕ, IfOk, OnOk, OnErr, length, take};
ghost use Rattle.swap_core.specs.Sound.{Sound};
ghost use Rattle.swap_core.specs.States.{opening};
ghost use Rattle.swap_core.specs.Transitions.{TakesMemory, after, after_all, IsAnswer};
ghost use Rattle.swap_core.specs.declared.steps.Step.TheVariants as step;
ghost use Rattle.swap_core.specs.declared.steps.Took.TheVariants as took;

use crate::actors::{Actor, ActorState, DeskState, newcomers};
use crate::plan::Plan;
use crate::row::Row;
use crate::steps::{NotNow, Step, Took};
use aftr_base::OutOfMemory;
use std::alloc::Global;
use std::marker::Model;

/// The machine of the swap, seen as its state, which is sound at any moment.
#[derive(Debug, Drop)]
pub struct Core {
    plan: Plan,
    version: u32,
    records: u32,
    counts: [u64; 2],
    areas: [Row; 2],
    actors: Vec<Actor>,
    desk: DeskState,
    points: Vec<u32>,
}

impl Model for Core {
    ghost use Rattle.swap_core.specs.States.{CoreState};

    ghost Value = { CoreState };

    ghost use Rattle.std.specs.Prelude.{◌+◌, ◌≤◌, length, vec_capacity};
    ghost use Rattle.swap_core.specs.Sound.{Sound};
    ghost use Rattle.swap_core.specs.Views.{state_of};

    ghost view = { λ c. state_of c };

    ghost invariant = { λ c. Sound (state_of c) × (length c.plan.tables ≤ vec_capacity c.points + 1) };
}

impl Core {
    /// Version 0 and no records drawn: area 0 holds table 0, all actors and the desk are idle.
    pub fn opening(alloc: Global, plan: Plan, actors: u32) -> Result<Core, OutOfMemory>
        ensures { IfOk result (λ core. core ≡ opening plan actors) }
    {
        let size = plan.width();
        let first = Row::of(alloc, plan.words(0), size)?;
        let second = Row::of(alloc, &[], size)?;
        let points = Vec::with_capacity(alloc, plan.len() as usize)?;
        Ok(Core {
            actors: newcomers(alloc, actors)?,
            plan,
            version: 0,
            records: 0,
            counts: [0; 2],
            areas: [first, second],
            desk: DeskState::Resting,
            points,
        })
    }

    /// One step. A step that answers `No` changes nothing, and neither does want of memory, which only a draw can meet.
    pub fn step(&mut self, step: Step) -> Result<Took, OutOfMemory>
        ensures answer { IfOk result (λ took. IsAnswer (after self.old step) took self.new) }
        ensures unchanged { OnErr result (self.new ≡ self.old) }
        ensures memory { OnErr result (TakesMemory step) }
    {
        match step {
            Step::Look { who } => Ok(self.look(who)),
            Step::Enter { who } => Ok(self.enter(who)),
            Step::Confirm { who } => Ok(self.confirm(who)),
            Step::Read { who, place } => Ok(self.read(who, place)),
            Step::Draw { who } => self.draw(who),
            Step::Leave { who } => Ok(self.leave(who)),
            Step::Due => Ok(self.due()),
            Step::Count => Ok(self.count()),
            Step::Write => Ok(self.write()),
            Step::Publish => Ok(self.publish()),
        }
    }

    /// The steps in order. After want of memory a prefix of them was taken.
    pub fn run(&mut self, steps: &[Step]) -> Result<(), OutOfMemory>
        ensures all { OnOk result (self.new ≡ after_all self.old steps.now) }
        ensures prefix { OnErr result ((k : ℕ) × (k < length steps.now) × (self.new ≡ after_all self.old (take k steps.now))) }
    {
        'steps: for step in steps {
            self.step(*step)?;
        }
        Ok(())
    }

    /// Whatever was done, the state is sound: the contract says so, and nothing is done here.
    pub fn stays_sound(&self)
        ensures { Sound self.now }
    {
        // Looking at a field gives the contract what the type's invariant says.
        let _ = &self.plan;
    }

    fn look(&mut self, who: u32) -> Took
        ensures { IsAnswer (after self.old (step.Look who)) result self.new }
    {
        let at = who as usize;
        if at >= self.actors.len() {
            return no(NotNow::Stranger);
        }
        let ActorState::Idle = self.actors[at].state else {
            return no(NotNow::Phase);
        };
        self.actors[at].state = ActorState::Looked(self.version);
        yes(u64::from(self.version))
    }

    fn enter(&mut self, who: u32) -> Took
        ensures { IsAnswer (after self.old (step.Enter who)) result self.new }
    {
        let at = who as usize;
        if at >= self.actors.len() {
            return no(NotNow::Stranger);
        }
        let ActorState::Looked(version) = self.actors[at].state else {
            return no(NotNow::Phase);
        };
        let area = version % 2;
        self.actors[at].state = ActorState::Asks(area);
        self.counts[area as usize] += 1;
        yes(0)
    }

    fn confirm(&mut self, who: u32) -> Took
        ensures { IsAnswer (after self.old (step.Confirm who)) result self.new }
    {
        let at = who as usize;
        if at >= self.actors.len() {
            return no(NotNow::Stranger);
        }
        let ActorState::Asks(area) = self.actors[at].state else {
            return no(NotNow::Phase);
        };
        let in_force = self.version % 2;
        if in_force != area {
            return no(NotNow::Moved);
        }
        self.actors[at].state = ActorState::Holds(area, self.version);
        yes(u64::from(self.version))
    }

    fn read(&mut self, who: u32, place: u32) -> Took
        ensures { IsAnswer (after self.old (step.Read who place)) result self.new }
    {
        let at = who as usize;
        if at >= self.actors.len() {
            return no(NotNow::Stranger);
        }
        let ActorState::Holds(area, version) = self.actors[at].state else {
            return no(NotNow::Phase);
        };
        if place as usize >= self.plan.words(version).len() {
            return no(NotNow::Past);
        }
        yes(self.areas[area as usize].get(place as usize))
    }

    fn draw(&mut self, who: u32) -> Result<Took, OutOfMemory>
        ensures answer { IfOk result (λ took. IsAnswer (after self.old (step.Draw who)) took self.new) }
        ensures unchanged { OnErr result (self.new ≡ self.old) }
    {
        let at = who as usize;
        if at >= self.actors.len() {
            return Ok(no(NotNow::Stranger));
        }
        let ActorState::Holds(_, version) = self.actors[at].state else {
            return Ok(no(NotNow::Phase));
        };
        let in_force = self.version;
        if in_force != version {
            return Ok(no(NotNow::Moved));
        }
        let number = self.records;
        let limit = self.plan.limit(version);
        if number == limit {
            return Ok(no(NotNow::Hold));
        }
        self.actors[at].draws.push(number, version)?;
        self.records += 1;
        Ok(yes(u64::from(number)))
    }

    fn leave(&mut self, who: u32) -> Took
        ensures { IsAnswer (after self.old (step.Leave who)) result self.new }
    {
        let at = who as usize;
        if at >= self.actors.len() {
            return no(NotNow::Stranger);
        }
        let Some(area) = self.actors[at].state.claimed() else {
            return no(NotNow::Phase);
        };
        self.actors[at].state = ActorState::Idle;
        self.counts[area as usize] -= 1;
        yes(0)
    }

    fn due(&mut self) -> Took
        ensures { IsAnswer (after self.old step.Due) result self.new }
    {
        if let DeskState::Writing(_) = self.desk {
            return no(NotNow::Phase);
        }
        let next = self.version + 1;
        if next >= self.plan.len() {
            return no(NotNow::NoLoad);
        }
        if self.records < self.plan.window(next).earliest {
            return no(NotNow::Later);
        }
        self.desk = DeskState::Ready;
        yes(0)
    }

    fn count(&mut self) -> Took
        ensures { IsAnswer (after self.old step.Count) result self.new }
    {
        let DeskState::Ready = self.desk else {
            return no(NotNow::Phase);
        };
        let claims = self.counts[((self.version + 1) % 2) as usize];
        if claims != 0 {
            return no(NotNow::Claimed);
        }
        self.desk = DeskState::Writing(0);
        yes(0)
    }

    fn write(&mut self) -> Took
        ensures { IsAnswer (after self.old step.Write) result self.new }
    {
        let DeskState::Writing(place) = self.desk else {
            return no(NotNow::Phase);
        };
        let words = self.plan.words(self.version + 1);
        if place as usize >= words.len() {
            return no(NotNow::Phase);
        }
        let word = words[place as usize];
        let spare = ((self.version + 1) % 2) as usize;
        self.areas[spare].set(place as usize, word);
        self.desk = DeskState::Writing(place + 1);
        yes(0)
    }

    fn publish(&mut self) -> Took
        ensures { IsAnswer (after self.old step.Publish) result self.new }
    {
        let DeskState::Writing(place) = self.desk else {
            return no(NotNow::Phase);
        };
        let written = place as usize;
        if written < self.plan.words(self.version + 1).len() {
            return no(NotNow::Phase);
        }
        self.points.push_reserved(self.records);
        self.version += 1;
        self.desk = DeskState::Resting;
        yes(u64::from(self.records))
    }
}

fn yes(value: u64) -> Took
    ensures { result ≡ took.Yes value }
{
    Took::Yes { value }
}

fn no(cause: NotNow) -> Took
    ensures { result ≡ took.No cause }
{
    Took::No { cause }
}
