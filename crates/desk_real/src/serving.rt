//! The desk's own process.

use crate::room::{CALLERS, DeskRoom};
use crate::variable::{VARIABLE, variable_text};
use desk_service::serve;
use desk_words::Greetings;
use slot_desk::Desk;
use slot_table::Limits;
use std::alloc::Global;
use std::io::{self, ErrorKind, Read, Write};
use std::net::{Ipv4Addr, Net, OpenListener, SocketAddr, SocketAddrV4, TcpListener};
use std::os::fd::AsRawFd;
use std::process::{Command, Processes, Stdio};
use std::random::RandomSource;
use std::rt::Clock;

/// What a desk goes by.
#[derive(Drop)]
pub struct DeskPlan {
    pub limits: Limits<16>,
    /// The entries of the host list, as its print has them.
    pub entries: Vec<Vec<u8>>,
    /// For how many seconds a host isn't used after a failure.
    pub period: u32,
}

/// How many bytes a token is made of.
const TOKEN_BYTES: usize = 16;

/// Is the desk: says on `out` where it is, serves its callers until `parent` ends, and then ends the command: the process that the parent has named, or
/// if it had no time for that, whatever has the run's variable.
///
/// # Errors
/// The limits aren't right, there is no port, or no random bytes; or memory runs out.
pub fn serve_desk<
    R: Net + Processes + RandomSource + Clock + Copy + Drop,
    P: Read + AsRawFd + Drop,
    W: Write,
>(rt: R, alloc: Global, parent: P, out: &mut W, plan: DeskPlan) -> io::Result<()>
where
    R::Listener: AsRawFd,
    R::Stream: AsRawFd,
{
    if !plan.limits.are_valid() {
        return Err(io::Error::from(ErrorKind::InvalidInput));
    }
    let mut desk: Desk<16> = Desk::new(alloc, plan.limits, plan.period, CALLERS)?;
    let (listener, port) = listen(&rt)?;
    let mut room = DeskRoom::new(rt, alloc, listener, parent, plan.entries)?;
    serve_callers(&rt, alloc, port, &mut desk, &mut room, out)
}

// A listener at a port of this machine, and the port.
fn listen<R: Net>(rt: &R) -> io::Result<(R::Listener, u16)> {
    let place = SocketAddr::V4(SocketAddrV4::new(Ipv4Addr::LOCALHOST, 0));
    let listener = TcpListener::bind(rt, place)?;
    let port = listener.local_addr()?.port();
    Ok((listener, port))
}

// Serves the callers of a desk at this port, under a new token, until the parent ends; then ends the command.
fn serve_callers<R: Net + Processes + RandomSource + Clock, P: Read, W: Write>(
    rt: &R,
    alloc: Global,
    port: u16,
    desk: &mut Desk<16>,
    room: &mut DeskRoom<R, R::Listener, R::Stream, P>,
    out: &mut W,
) -> io::Result<()>
where
    R::Stream: AsRawFd,
{
    let greetings = Greetings::new(alloc, token(rt, alloc)?)?;
    say_place(alloc, port, greetings.token.as_str(), out)?;
    serve(desk, &greetings, room);
    end_command(rt, alloc, port, greetings.token.as_str(), room.command())
}

// Says on `out` where the desk is.
fn say_place<W: Write>(alloc: Global, port: u16, token: &str, out: &mut W) -> io::Result<()> {
    let line = format!(in alloc; "{port}:{token}\n")?;
    out.write_all(line.as_bytes())
}

// Ends the command, by its process if the parent has named it.
fn end_command<R: Processes>(
    rt: &R,
    alloc: Global,
    port: u16,
    token: &str,
    process: Option<u32>,
) -> io::Result<()> {
    match process {
        Some(process) => stop(rt, alloc, process),
        None => stop_unnamed(rt, alloc, port, token),
    }
}

fn token<R: RandomSource>(rt: &R, alloc: Global) -> io::Result<String> {
    let mut bytes = [0u8; TOKEN_BYTES];
    rt.fill_bytes(&mut bytes)?;
    Ok(hex::encode(alloc, bytes.as_slice())?)
}

// Asks a process to end, as `kill` does.
fn stop<R: Processes>(rt: &R, alloc: Global, process: u32) -> io::Result<()> {
    run_script(
        rt,
        alloc,
        "kill -TERM \"$0\"",
        format!(in alloc; "{process}")?.as_str(),
    )
}

/// The script that ends whatever has a word in its environment. It looks for a second: what is being started has it only then.
const STOP_ALL: &str = "for time in 1 2 3 4 5; do
  for file in $(grep -lF \"$0\" /proc/[0-9]*/environ); do
    file=${file#/proc/}
    kill -TERM \"${file%/environ}\"
  done
  sleep 0.2
done";

// Ends the command, whose process the parent had no time to name: it began only now.
fn stop_unnamed<R: Processes>(rt: &R, alloc: Global, port: u16, token: &str) -> io::Result<()> {
    let value = variable_text(alloc, port, token)?;
    run_script(
        rt,
        alloc,
        STOP_ALL,
        format!(in alloc; "{VARIABLE}={value}")?.as_str(),
    )
}

// Runs a script of the shell to its end. Its one word is `$0`.
fn run_script<R: Processes>(rt: &R, alloc: Global, script: &str, word: &str) -> io::Result<()> {
    let mut command = Command::new(alloc, "sh")?;
    run_silently(rt, &mut command, ["-c", script, word])
}

// Runs a command with these words, without streams.
fn run_silently<R: Processes>(rt: &R, command: &mut Command, words: [&str; 3]) -> io::Result<()> {
    command.args(words)?;
    command
        .stdin(Stdio::null())
        .stdout(Stdio::null())
        .stderr(Stdio::null());
    command.status(rt)?;
    Ok(())
}
