// What the program was asked for, by its arguments.
use reading::number;
use std::env::FillError;
use std::rt::Env;
use std::{fmt, str};

// The steps that an image may take where no budget is given, as in the Rust.
const BUDGET: u64 = 1000000;

// What goes to standard output of an image: its value as people read it, or the value's bytes.
#[derive(Clone, Copy, Debug, PartialEq, Eq)]
pub enum Command {
    Eval,
    Hex,
}

#[derive(Clone, Copy, Debug, PartialEq, Eq)]
pub struct Asked {
    pub command: Command,
    pub budget: u64,
}

// What is wrong with the arguments.
#[derive(Clone, Copy, Debug, PartialEq, Eq)]
pub enum Unclear {
    Command,
    Image,
    Budget,
}

impl fmt::Display for Unclear {
    fn fmt<W: fmt::Write>(&self, f: &mut fmt::Formatter<W>) -> fmt::Result {
        f.write_str(match self {
            Unclear::Command => "start with eval or hex: gable eval IMAGE [BUDGET]",
            Unclear::Image => "name one image and at most one budget: gable eval IMAGE [BUDGET]",
            Unclear::Budget => {
                "give the budget as a whole number from 0 to 18446744073709551615, in digits only"
            }
        })
    }
}

// Whether there is an argument i, the program's own name being argument 0.
fn is_given(rt: &impl Env, i: usize) -> bool {
    !matches!(rt.arg(i, &mut []), Err(FillError::NotPresent))
}

fn command_asked(rt: &impl Env) -> Option<Command> {
    let mut text = [0u8; 8];
    let Ok(n) = rt.arg(1, &mut text) else {
        return None;
    };
    match str::from_utf8(&text[..n]) {
        Ok("eval") => Some(Command::Eval),
        Ok("hex") => Some(Command::Hex),
        _ => None,
    }
}

fn budget_asked(rt: &impl Env) -> Option<u64> {
    if !is_given(rt, 3) {
        return Some(BUDGET);
    }
    let mut text = [0u8; 32];
    let Ok(n) = rt.arg(3, &mut text) else {
        return None;
    };
    number(&text[..n])
}

// Both commands take an image and at most a budget. With no arguments nothing is asked.
pub fn read(rt: &impl Env) -> Result<Option<Asked>, Unclear> {
    if !is_given(rt, 1) {
        return Ok(None);
    }
    let command = command_asked(rt).ok_or(Unclear::Command)?;
    if !is_given(rt, 2) || is_given(rt, 4) {
        return Err(Unclear::Image);
    }
    let budget = budget_asked(rt).ok_or(Unclear::Budget)?;
    Ok(Some(Asked { command, budget }))
}
