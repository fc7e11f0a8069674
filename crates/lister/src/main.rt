// The plan lister: a sheet on standard input, its plan by probe or its refusal on standard output.
#![tactic(auto)]

use files::{Answer, Failed, Source, Status, Stream};
use std::process::ExitCode;

// Prints the text for a sheet; a refusal begins with its word.
fn print(rt: &HostRuntime, sheet: &[u8]) -> Status {
    let mut text = files::text_room();
    let m = listing::list(sheet, &mut text);
    files::put(rt, Stream::Output, &text[..m]).map_err(|error| files::fail(
        rt,
        b"standard output",
        &error,
    ))?;
    if text[0] == b'r' {
        return Ok(Answer::Refused);
    }
    Ok(Answer::Answered)
}

fn run(rt: &HostRuntime) -> Status {
    if files::arg_count(rt) != 1 {
        return files::say(rt, Stream::Errors, b"usage: lister < SHEET\n", Err(Failed));
    }
    let mut sheet = [0u8; meaning::DECIDING_SHEET];
    let got = files::read_full(&mut Source::Input(rt.stdin()), &mut sheet);
    let n = got
        .whole()
        .map_err(|error| files::fail(rt, b"standard input", &error))?;
    print(rt, &sheet[..n])
}

fn main(rt: HostRuntime) -> ExitCode {
    let status = files::tell(&rt, run(&rt));
    ExitCode::from(files::exit_number(status))
}
