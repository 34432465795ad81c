// The lines of an entry, in the order of docs/EXPLAIN.md.
ghost use Rattle.std.specs.Prelude.{◌≡◌, length};

use crate::answers::Answered;
use crate::doing::Doing;
use crate::page::{Page, lay};
use crate::requests::Requested;
use crate::standing::{Standing, mode_name};
use model::{Answer, Contract, DataRole, Port, Record, Setting, Step};
use std::fmt;

#[derive(Clone, Copy)]
struct Agreed(Contract);

impl fmt::Display for Agreed {
    fn fmt<W: fmt::Write>(&self, f: &mut fmt::Formatter<W>) -> fmt::Result {
        match self.0 {
            Contract::Safe5V => f.write_str("D, Safe5V"),
            Contract::Implicit => f.write_str("I, Implicit"),
            Contract::TransitionToExplicit => f.write_str("T, TransitionToExplicit"),
            Contract::Explicit(request) => write!(f, "E, Explicit{}", Requested(request)),
            Contract::Invalid => f.write_str("N, Invalid"),
        }
    }
}

fn role_name(role: DataRole) -> &'static str {
    match role {
        DataRole::Ufp => "Ufp",
        DataRole::Dfp => "Dfp",
    }
}

fn setting_name(setting: Setting) -> &'static str {
    match setting {
        Setting::Crate => "crate",
        Setting::Standard => "standard",
    }
}

#[derive(Clone, Copy)]
struct Recorded(Record);

impl fmt::Display for Recorded {
    fn fmt<W: fmt::Write>(&self, f: &mut fmt::Formatter<W>) -> fmt::Result {
        let record = self.0;
        let hard = record.hard_reset_counter;
        let caps = record.caps_counter;
        let Port {
            dual_role,
            vconn_source: created,
            setting,
        } = record.port;
        writeln!(f, "  state     {}", Standing(record.place))?;
        writeln!(f, "  mode      {}", mode_name(record.mode))?;
        writeln!(f, "  contract  {}", Agreed(record.contract))?;
        write!(
            f,
            "  counts    hard reset {} of {}, ",
            hard.value, hard.max_value
        )?;
        writeln!(f, "capabilities {} of {}", caps.value, caps.max_value)?;
        write!(
            f,
            "  port      vconn_source {} (created {created}), ",
            record.vconn_source
        )?;
        write!(
            f,
            "dual_role {dual_role}, data_role {}, ",
            role_name(record.data_role)
        )?;
        writeln!(f, "setting {}", setting_name(setting))
    }
}

#[derive(Clone, Copy)]
struct Entered<'a> {
    number: u64,
    row: Option<u8>,
    step: &'a Step<Record>,
}

impl fmt::Display for Entered<'_> {
    fn fmt<W: fmt::Write>(&self, f: &mut fmt::Formatter<W>) -> fmt::Result {
        let step = self.step;
        writeln!(f, "entry {}: {}", self.number, Answered(step.answer))?;
        // A refused entry has its first line alone.
        if let Answer::Refused(_) = step.answer {
            return Ok(());
        }
        if let Some(row) = self.row {
            writeln!(f, "  row       {row}")?;
        }
        if let Some(n) = step.remaining {
            writeln!(f, "  remaining {n}")?;
        }
        let [first, second] = step.actions;
        write!(
            f,
            "{}{}{}",
            Recorded(step.record),
            Doing(first),
            Doing(second)
        )
    }
}

// `row` is the row of the wall that a message in Ready met. What has no room is left out; an entry is far shorter than the room that a caller
// keeps for it.
pub fn entry(page: &mut Page<'_>, number: u64, row: Option<u8>, step: &Step<Record>)
    ensures { length page.new.out.now ≡ length page.old.out.now }
{
    lay(page, Entered { number, row, step });
}
