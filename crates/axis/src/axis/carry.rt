// An accepted block is carried out.
ghost use Rattle.std.specs.Prelude.{◌≡◌, true, false, MatchBool};
ghost use Rattle.drive.specs.Positions.{is_position};
ghost use Rattle.profile.specs.Plans.{Lawful, plan_means};
ghost use Rattle.profile.specs.Profiles.{Begun, Braked};
ghost use Rattle.axis.specs.Axes.{meaning};
ghost use Rattle.axis.specs.Carrying.{began, go_travel, held, preset as preset_of, reset as reset_of, carried, Uses, calls_profile, calls_drive, Ready};
ghost use Rattle.axis.specs.Questions.{runs};
ghost use Rattle.axis.specs.Plans.{single_plan};

use crate::axis::Axis;
use crate::order::{DwellRow, Order, SingleMove};
use crate::state::{Kind, State, Travel};
use drive::direction::Direction;
use drive::position::distance;
use drive::traits::Drive;
use profile::plan::Plan;
use profile::row::Row;
use profile::traits::Profile;

impl<D: Drive, P: Profile> Axis<D, P> {
    // Begins a plan, and runs.
    pub(crate) fn begin(&mut self, plan: Plan, travel: Travel)
        ensures after { meaning D.Drive P.Profile self.new ≡ began (meaning D.Drive P.Profile self.old) travel (P.Profile.means self.new.profile) }
        ensures begun { Begun (P.Profile.means self.old.profile) (plan_means plan) (P.Profile.means self.new.profile) }
        ensures drive { self.new.drive ≡ self.old.drive }
    {
        self.profile.begin(plan);
        self.memory.set_out(travel);
    }

    // The plan of a single move.
    fn single_plan(&self, single: SingleMove) -> Plan
        requires { Lawful (single_plan (meaning D.Drive P.Profile self.now) single) }
        ensures { plan_means result ≡ single_plan (meaning D.Drive P.Profile self.now) single }
    {
        let row = Row {
            steps: distance(self.drive.place(), single.target),
            speed: single.speed,
        };
        Plan::new(self.memory.table.start(), single.rates, &[row]).unwrap()
    }

    // To a target, from where the drive stands.
    fn go_travel(&self, single: SingleMove) -> Travel
        ensures { result ≡ go_travel (meaning D.Drive P.Profile self.now) single }
    {
        Travel {
            direction: Direction::toward(self.drive.place(), single.target),
            kind: Kind::Single(single.target),
        }
    }

    // Comes to rest early.
    fn hold(&mut self)
        ensures after { meaning D.Drive P.Profile self.new ≡ held self.old.memory.state (meaning D.Drive P.Profile self.old) (P.Profile.means self.new.profile) }
        ensures braked { MatchBool (runs self.old.memory.state) (Braked (P.Profile.means self.old.profile) (P.Profile.means self.new.profile)) (P.Profile.means self.new.profile ≡ P.Profile.means self.old.profile) }
        ensures drive { self.new.drive ≡ self.old.drive }
    {
        match self.memory.state {
            State::Running(travel) => {
                self.profile.brake();
                self.memory
                    .ease(self.profile.done(), self.drive.place(), travel);
            }
            State::Pausing { .. } => {
                self.profile.brake();
                self.memory.state = State::Idle;
            }
            State::Idle | State::Programming | State::Holding(_) | State::Held(_) => {}
        }
    }

    fn preset(&mut self, place: i32)
        requires { is_position place ≡ true }
        ensures after { meaning D.Drive P.Profile self.new ≡ preset_of (meaning D.Drive P.Profile self.old) place }
        ensures profile { self.new.profile ≡ self.old.profile }
    {
        self.drive.set(place).unwrap();
        self.memory.preset();
    }

    fn reset(&mut self, trip: bool)
        ensures after { meaning D.Drive P.Profile self.new ≡ reset_of (meaning D.Drive P.Profile self.old) trip }
        ensures drive { trip ≡ false → self.new.drive ≡ self.old.drive }
        ensures profile { self.new.profile ≡ self.old.profile }
    {
        if trip {
            self.drive.clear();
        }
        self.memory.reset();
    }

    // Carries out what a block orders.
    pub(crate) fn carry(&mut self, order: Order)
        requires { Ready (meaning D.Drive P.Profile self.old) order }
        ensures after { meaning D.Drive P.Profile self.new ≡ carried (meaning D.Drive P.Profile self.old) order (P.Profile.means self.new.profile) }
        ensures uses { Uses (meaning D.Drive P.Profile self.old) order (P.Profile.means self.new.profile) }
        ensures drive { calls_drive order ≡ false → self.new.drive ≡ self.old.drive }
        ensures profile { calls_profile order ≡ false → self.new.profile ≡ self.old.profile }
    {
        match order {
            Order::Nothing => {}
            Order::Go(single) => {
                let plan = self.single_plan(single);
                let travel = self.go_travel(single);
                self.begin(plan, travel);
            }
            Order::Hold => self.hold(),
            Order::Stop => self.memory.stop(),
            Order::Preset(place) => self.preset(place),
            Order::Reset(trip) => self.reset(trip),
            Order::Program => self.memory.program(),
            Order::Segment(segment) => self.memory.table.add(segment).unwrap(),
            Order::Blend(direction, rates) => {
                let plan = self.memory.table.blend_plan(rates).unwrap();
                self.begin(
                    plan,
                    Travel {
                        direction,
                        kind: Kind::Blend,
                    },
                );
            }
            Order::Dwell(run) => {
                let plan = self.memory.table.row_plan(run.rates, 0).unwrap();
                let travel = self.memory.row_travel(DwellRow { run, index: 0 });
                self.begin(plan, travel);
            }
        }
    }
}
