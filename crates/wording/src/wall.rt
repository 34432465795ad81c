// The wall chart: the rows of `dispatch`, one a line.
ghost use Rattle.std.specs.Prelude.{◌≡◌, length};

use crate::page::{Page, lay};
use dispatch::{Class, Condition, Next, Row};
use std::fmt;

fn class_name(class: Option<Class>) -> &'static str {
    match class {
        Some(Class::Request) => "0 Request",
        Some(Class::EprRequest) => "1 EprRequest",
        Some(Class::EprMode) => "2 EprMode",
        Some(Class::Control) => "3 control",
        Some(Class::ExtendedControl) => "4 extended control",
        None => "any",
    }
}

// No row has another type.
fn type_name(class: Option<Class>, message_type: Option<u8>) -> &'static str {
    match (class, message_type) {
        (Some(Class::EprMode), Some(1)) => "1 Enter",
        (Some(Class::EprMode), Some(5)) => "5 Exit",
        (Some(Class::Control), Some(model::GET_SOURCE_CAP)) => "7 GetSourceCap",
        (Some(Class::Control), Some(model::GET_SINK_CAP)) => "8 GetSinkCap",
        (Some(Class::Control), Some(model::DR_SWAP)) => "9 DrSwap",
        (Some(Class::Control), Some(model::PR_SWAP)) => "10 PrSwap",
        (Some(Class::Control), Some(model::VCONN_SWAP)) => "11 VconnSwap",
        (Some(Class::Control), Some(model::SOFT_RESET)) => "13 SoftReset",
        (Some(Class::Control), Some(model::NOT_SUPPORTED)) => "16 NotSupported",
        (Some(Class::Control), Some(model::FR_SWAP)) => "19 FrSwap",
        (Some(Class::ExtendedControl), Some(model::EPR_GET_SOURCE_CAP)) => "1 EprGetSourceCap",
        (Some(Class::ExtendedControl), Some(model::EPR_GET_SINK_CAP)) => "2 EprGetSinkCap",
        (Some(Class::ExtendedControl), Some(model::EPR_KEEP_ALIVE)) => "3 EprKeepAlive",
        _ => "any",
    }
}

fn condition_name(condition: Condition) -> &'static str {
    match condition {
        Condition::Always => "always",
        Condition::InSpr => "in SPR",
        Condition::InEpr => "in EPR",
        Condition::Dual => "dual",
        Condition::NotDual => "not dual",
        Condition::BadPayload => "bad payload",
    }
}

// A next state, and the section of PD 3.2 that describes it.
fn next_name(next: Next) -> (&'static str, &'static str) {
    match next {
        Next::Stop => ("S.0, RxError::HardReset", "8.3.3.2.6"),
        Next::NegotiateCapability => ("NegotiateCapability", "8.3.3.2.4"),
        Next::EprEntry => ("H.5, EprMode(Entry)", "8.3.3.26.1.1"),
        Next::EprExitReceived => ("H.6, EprMode(ExitReceived)", "8.3.3.26.3.2"),
        Next::DataEvaluate => ("DrpSwap(Data(Evaluate))", "8.3.3.19.1.2"),
        Next::PowerEvaluate => ("H.3, DrpSwap(Power(Evaluate))", "8.3.3.19.3.2"),
        Next::HardReset => ("HardReset", "8.3.3.2.9"),
        Next::SoftReset => ("SoftReset", "8.3.3.4.1.2"),
        Next::SendCapabilities => ("SendCapabilities", "8.3.3.2.3"),
        Next::GiveSourceCap => ("GiveSourceCap(Spr)", "8.3.3.2.15"),
        Next::GiveEprSourceCap => ("GiveSourceCap(Epr)", "8.3.3.2.15"),
        Next::EvaluateSwap => ("VconnSwap(EvaluateSwap)", "8.3.3.20.2"),
        Next::FastEvaluate => ("DrpSwap(FastPower(Evaluate))", "8.3.3.19.5.2"),
        Next::GiveSinkCap => ("DrpGiveSinkCap(Spr)", "8.3.3.19.8.1"),
        Next::GiveEprSinkCap => ("DrpGiveSinkCap(Epr)", "8.3.3.19.8.1"),
        Next::NotSupportedReceived => ("NotSupportedReceived", "8.3.3.6.1.2"),
        Next::EprKeepAlive => ("EprKeepAlive", "8.3.3.2.14"),
        Next::SendNotSupported => ("SendNotSupported", "8.3.3.6.1.1"),
    }
}

// The sentence of document 01, port order 3, that has the rows of a class. By a match: two classes share one, so that no discriminant is it.
fn sentence(class: Option<Class>) -> u8 {
    match class {
        Some(Class::Request | Class::EprRequest) => 1,
        Some(Class::EprMode) => 2,
        Some(Class::Control) => 3,
        Some(Class::ExtendedControl) => 4,
        None => 5,
    }
}

#[derive(Clone, Copy)]
struct Line(u8);

impl fmt::Display for Line {
    fn fmt<W: fmt::Write>(&self, f: &mut fmt::Formatter<W>) -> fmt::Result {
        let n = self.0;
        let Row {
            class,
            message_type,
            condition,
            next,
        } = dispatch::rule(n);
        let (state, section) = next_name(next);
        write!(
            f,
            "{n:>3}  {:<20}{:<19}",
            class_name(class),
            type_name(class, message_type)
        )?;
        write!(
            f,
            "{:<13}{state:<31}{section:<14}",
            condition_name(condition)
        )?;
        writeln!(f, "{}", sentence(class))
    }
}

#[derive(Clone, Copy)]
struct Chart;

impl fmt::Display for Chart {
    fn fmt<W: fmt::Write>(&self, f: &mut fmt::Formatter<W>) -> fmt::Result {
        writeln!(
            f,
            "A message in Ready: the first row from the top that holds is the answer. Sentences: document 01, port order 3.\n\n\
            row  class               type               condition    next state                     PD 3.2        sentence",
        )?;
        for n in 1..=dispatch::LAST {
            write!(f, "{}", Line(n))?;
        }
        Ok(())
    }
}

pub fn rules(page: &mut Page<'_>)
    ensures { length page.new.out.now ≡ length page.old.out.now }
{
    lay(page, Chart);
}
