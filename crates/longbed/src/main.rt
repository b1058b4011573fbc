// Reads a call script from the standard input, makes its calls of an axis and prints what each answered.
// Where a line cannot be read nothing is called, and the program ends with status 1.
#![tactic(auto)]

mod list;
mod operation;
mod order;
mod outcome;
mod prepare;
mod read;
mod run;
mod show;
mod unread;

use read::read_script;
use run::run;
use std::io::Read;
use std::process::ExitCode;

fn main(rt: HostRuntime) -> anyhow::Result<ExitCode> {
    let mut text = Vec::new(rt.alloc());
    rt.stdin().read_to_end(&mut text)?;
    match read_script(&rt, text.as_slice())? {
        Some(script) => {
            run(&rt, &script)?;
            Ok(ExitCode::SUCCESS)
        }
        None => Ok(ExitCode::FAILURE),
    }
}
