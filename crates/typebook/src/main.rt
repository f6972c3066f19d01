// Runs a script, from the file that its only argument names or from standard input, and prints all that it did.
#![tactic(auto)]

use anyhow::anyhow;
use runs::run::run_script;
use std::io::Read;
use std::process::ExitCode;
use std::{env, fs, io};

fn read_input(rt: &HostRuntime) -> io::Result<Vec<u8>> {
    let mut text = Vec::new(rt.alloc());
    rt.stdin().read_to_end(&mut text)?;
    Ok(text)
}

// The text that was read from somewhere. Where it cannot be read, that is said.
fn text_of(rt: &HostRuntime, from: &str, read: io::Result<Vec<u8>>) -> anyhow::Result<Vec<u8>> {
    match read {
        Ok(text) => Ok(text),
        Err(e) => {
            eprintln!(rt; "typebook: cannot read {from}: {e}")?;
            Err(e.into())
        }
    }
}

fn read_script(rt: &HostRuntime) -> anyhow::Result<Vec<u8>> {
    let mut args = env::args(rt)?;
    let _program = args.next();
    match (args.next(), args.next()) {
        (None, _) => text_of(rt, "standard input", read_input(rt)),
        (Some(path), None) => text_of(rt, path.as_str(), fs::read(rt, path.as_str())),
        (Some(_), Some(_)) => {
            eprintln!(rt; "usage: typebook [SCRIPT]")?;
            Err(anyhow!("too many arguments"))
        }
    }
}

// Runs the script and tells whether every line was understood. What went wrong is said where it is known.
fn carry_out(rt: &HostRuntime) -> anyhow::Result<bool> {
    let text = read_script(rt)?;
    match run_script(rt, text.as_slice()) {
        Ok(understood) => Ok(understood),
        Err(e) => {
            eprintln!(rt; "typebook: {e}")?;
            Err(e)
        }
    }
}

fn main(rt: HostRuntime) -> ExitCode {
    match carry_out(&rt) {
        Ok(true) => ExitCode::SUCCESS,
        // what was not understood stands in the output; the status says so
        Ok(false) | Err(_) => ExitCode::FAILURE,
    }
}
