//! Sockets, each against a peer in another thread.

use crate::rules::everybody;
use access_list::parse_rule;
use edge_real::{Notices, TcpDialer, TcpDoor};
use edge_traits::{Dialer, Door, EdgeFault, Link};
use farm_types::{Bytes, HostName};
use std::alloc::{AllocError, Global};
use std::process::Command;
use std::test::Fail;
use std::thread;
use std::time::{Duration, Instant};

const LOCALHOST: u32 = 0x7f00_0001;

fn host(alloc: Global, name: &[u8]) -> Result<HostName, AllocError> {
    Ok(HostName {
        text: Bytes::from_slice(alloc, name)?,
    })
}

/// Sends one byte, and answers the one that comes back and whether the link ended after it.
fn ask<D: Dialer>(alloc: Global, dialer: &mut D, host: &HostName, port: u16) -> (u8, bool) {
    let Ok(mut link) = dialer.dial(alloc, host, port) else {
        return (0, false);
    };
    let _ = link.send(b"a");
    let mut room = [0u8; 4];
    let _ = link.recv(&mut room);
    let ended = matches!(link.recv(&mut [0u8; 4]), Ok(0));
    dialer.hang_up(link);
    (room[0], ended)
}

/// Answers one byte by another, and returns the one that came and whose it is.
fn answer<D: Door>(alloc: Global, door: &mut D) -> (u8, u32) {
    let Ok((mut link, peer)) = door.accept(alloc) else {
        return (0, 0);
    };
    let mut room = [0u8; 4];
    let _ = link.recv(&mut room);
    let _ = link.send(b"b");
    door.leave(link);
    (room[0], peer)
}

#[test]
fn a_dialer_and_a_door_carry_bytes_both_ways(rt: HostRuntime) -> Result<(), Fail> {
    let alloc = rt.alloc();
    let mut door = TcpDoor::open(rt, alloc, LOCALHOST, 0, everybody(alloc));
    let port = door.port().ok_or("port")?;
    let mut dialer = TcpDialer::new(rt, Notices::Never);
    let name = host(alloc, b"localhost")?;
    let (near, far) = thread::join(
        &rt,
        move || ask(alloc, &mut dialer, &name, port),
        || answer(alloc, &mut door),
    );
    assert_eq!(rt; near, (b'b', true));
    assert_eq!(rt; far, (b'a', LOCALHOST));
    Ok(())
}

/// Sends 1,000 bytes over and over, and answers how many were taken in all.
fn send_often<L: Link>(link: &mut L, times: u32) -> u64 {
    let mut sent = 0u64;
    for _ in 0..times {
        if let Ok(count) = link.send(&[b'r'; 1000]) {
            sent = sent.saturating_add(count as u64);
        }
    }
    sent
}

/// How many bytes the link gives until its end.
fn count_given<L: Link>(link: &mut L) -> u64 {
    let mut given = 0u64;
    for _ in 0..1_000_000 {
        match link.recv(&mut [0u8; 1000]) {
            Ok(count) if count > 0 => given = given.saturating_add(count as u64),
            _ => return given,
        }
    }
    given
}

#[test]
fn a_client_that_sends_too_much_gets_the_whole_reply(rt: HostRuntime) -> Result<(), Fail> {
    let alloc = rt.alloc();
    let mut door = TcpDoor::open(rt, alloc, LOCALHOST, 0, everybody(alloc));
    let port = door.port().ok_or("port")?;
    let mut dialer = TcpDialer::new(rt, Notices::Never);
    let name = host(alloc, b"127.0.0.1")?;
    let (given, sent) = thread::join(
        &rt,
        move || {
            let Ok(mut link) = dialer.dial(alloc, &name, port) else {
                return 0;
            };
            send_often(&mut link, 100);
            let first = link.recv(&mut [0u8; 1]);
            send_often(&mut link, 100);
            let given = count_given(&mut link).saturating_add(u64::from(matches!(first, Ok(1))));
            dialer.hang_up(link);
            given
        },
        || {
            let Ok((mut link, _)) = door.accept(alloc) else {
                return 0;
            };
            let _ = link.recv(&mut [0u8; 1]);
            let sent = send_often(&mut link, 8000);
            door.leave(link);
            sent
        },
    );
    assert!(rt; sent > 7_000_000);
    assert_eq!(rt; given, sent);
    Ok(())
}

/// Leaves a client that sends nothing after its first byte and doesn't end, and answers how long that took. The client was sent these bytes.
fn leave_silent<D: Door>(
    rt: HostRuntime,
    door: &mut D,
    port: u16,
    sent: &[u8],
) -> Result<Duration, Fail>
where
    D::Link: Drop,
{
    let alloc = rt.alloc();
    let mut dialer = TcpDialer::new(rt, Notices::Never);
    let name = host(alloc, b"127.0.0.1")?;
    let mut silent = dialer.dial(alloc, &name, port)?;
    silent.send(b"x")?;
    let (mut link, _) = door.accept(alloc)?;
    if !sent.is_empty() {
        link.send(sent)?;
    }
    let before = Instant::now(&rt)?;
    door.leave(link);
    let waited = before.elapsed(&rt)?;
    dialer.hang_up(silent);
    Ok(waited)
}

#[test]
fn a_silent_client_is_left_after_a_second(rt: HostRuntime) -> Result<(), Fail> {
    let alloc = rt.alloc();
    let mut door = TcpDoor::open(rt, alloc, LOCALHOST, 0, everybody(alloc));
    let port = door.port().ok_or("port")?;
    let waited = leave_silent(rt, &mut door, port, b"a")?;
    assert!(rt; Duration::from_millis(900) <= waited && waited < Duration::from_secs(20));
    Ok(())
}

#[test]
fn a_client_that_was_sent_nothing_is_left_at_once(rt: HostRuntime) -> Result<(), Fail> {
    let alloc = rt.alloc();
    let mut door = TcpDoor::open(rt, alloc, LOCALHOST, 0, everybody(alloc));
    let port = door.port().ok_or("port")?;
    let waited = leave_silent(rt, &mut door, port, b"")?;
    assert!(rt; waited < Duration::from_millis(900));
    Ok(())
}

type Tcp = TcpDialer<HostRuntime>;

/// A link over which these bytes were sent.
fn dial_with(
    alloc: Global,
    dialer: &mut Tcp,
    host: &HostName,
    port: u16,
    bytes: &[u8],
) -> Result<<Tcp as Dialer>::Link, EdgeFault> {
    let mut link = dialer.dial(alloc, host, port)?;
    if !bytes.is_empty() {
        link.send(bytes)?;
    }
    Ok(link)
}

/// Serves the client that is handed out next, and answers how many bytes it had sent.
fn serve_next<D: Door>(alloc: Global, door: &mut D) -> Option<usize>
where
    D::Link: Drop,
{
    let (mut link, _) = door.accept(alloc).ok()?;
    let given = link.recv(&mut [0u8; 20]).ok();
    door.leave(link);
    given
}

/// Three clients, of which one is silent and one has begun, and what the door saw of each in the order of its serving.
fn serve_three<A: Door>(
    alloc: Global,
    dialer: &mut Tcp,
    door: &mut A,
    host: &HostName,
    port: u16,
) -> Result<[Option<usize>; 3], EdgeFault>
where
    A::Link: Drop,
{
    let silent = dial_with(alloc, dialer, host, port, b"")?;
    let mut slow = dial_with(alloc, dialer, host, port, b"DIST00000001ARGC")?;
    let ready = dial_with(alloc, dialer, host, port, b"GET")?;
    let first = serve_next(alloc, door);
    slow.send(b"x")?;
    let second = serve_next(alloc, door);
    dialer.hang_up(silent);
    let third = serve_next(alloc, door);
    dialer.hang_up(slow);
    dialer.hang_up(ready);
    Ok([first, second, third])
}

#[test]
fn a_silent_client_and_one_that_began_hold_no_door(rt: HostRuntime) -> Result<(), Fail> {
    let alloc = rt.alloc();
    let first = TcpDoor::open(rt, alloc, LOCALHOST, 0, everybody(alloc));
    let mut door = first.share();
    let port = door.port().ok_or("port")?;
    let mut dialer = TcpDialer::new(rt, Notices::Never);
    let name = host(alloc, b"127.0.0.1")?;
    let seen = serve_three(alloc, &mut dialer, &mut door, &name, port)?;
    assert_eq!(rt; seen, [Some(3), Some(17), Some(0)]);
    Ok(())
}

#[test]
fn a_denied_client_that_is_silent_is_handed_out(rt: HostRuntime) -> Result<(), Fail> {
    let alloc = rt.alloc();
    let mut access = everybody(alloc);
    let rule = parse_rule(false, b"127.0.0.1").map_err(|_| "rule")?;
    access.rules.try_push(rule)?;
    let mut door = TcpDoor::open(rt, alloc, LOCALHOST, 0, access);
    let port = door.port().ok_or("port")?;
    let mut dialer = TcpDialer::new(rt, Notices::Never);
    let silent = dialer.dial(alloc, &host(alloc, b"127.0.0.1")?, port)?;
    let (link, peer) = door.accept(alloc)?;
    assert_eq!(rt; peer, LOCALHOST);
    door.leave(link);
    dialer.hang_up(silent);
    Ok(())
}

#[test]
fn a_host_that_is_not_there_is_a_fault(rt: HostRuntime) -> Result<(), Fail> {
    let alloc = rt.alloc();
    let mut dialer = TcpDialer::new(rt, Notices::Never);
    for name in [b"127.0.0.1".as_slice(), b"red.invalid", b"\xff"] {
        let name = host(alloc, name)?;
        assert!(rt; matches!(dialer.dial(alloc, &name, 1), Err(EdgeFault::Failed)));
    }
    Ok(())
}

#[test]
fn an_address_of_another_machine_gives_no_listener(rt: HostRuntime) {
    let alloc = rt.alloc();
    let mut closed = TcpDoor::open(rt, alloc, 0x0102_0304, 1, everybody(alloc));
    assert!(rt; !closed.is_open() && !closed.share().is_open());
    assert_eq!(rt; closed.port(), None);
    assert!(rt; matches!(closed.accept(rt.alloc()), Err(EdgeFault::Failed)));
}

#[test]
fn a_shared_door_is_at_the_same_port(rt: HostRuntime) {
    let alloc = rt.alloc();
    let door = TcpDoor::open(rt, alloc, LOCALHOST, 0, everybody(alloc));
    let shared = door.share();
    assert!(rt; door.is_open() && shared.is_open());
    assert_eq!(rt; shared.port(), door.port());
}

/// How long a receive waits on a link of this dialer, whose peer sends nothing, until it fails.
fn time_to_fail(rt: HostRuntime, dialer: &mut Tcp, name: &HostName, port: u16) -> Option<Duration> {
    let mut link = dialer.dial(rt.alloc(), name, port).ok()?;
    let begun = Instant::now(&rt).ok()?;
    let failed = link.recv(&mut [0u8; 4]).is_err();
    let waited = begun.elapsed(&rt).ok()?;
    dialer.hang_up(link);
    if failed { Some(waited) } else { None }
}

/// Starts programs one after the other. The end of each comes to this process as a signal.
fn start_often(rt: HostRuntime, times: u32) -> u32 {
    let mut started = 0u32;
    for _ in 0..times {
        let Ok(mut command) = Command::new(rt.alloc(), "/bin/true") else {
            continue;
        };
        if command.status(&rt).is_ok() {
            started = started.saturating_add(1);
        }
    }
    started
}

#[test]
fn a_wait_ends_though_signals_come(rt: HostRuntime) -> Result<(), Fail> {
    let alloc = rt.alloc();
    let door = TcpDoor::open(rt, alloc, LOCALHOST, 0, everybody(alloc));
    let port = door.port().ok_or("port")?;
    let mut dialer = TcpDialer::waiting(rt, Notices::Never, Duration::from_millis(400));
    let name = host(alloc, b"127.0.0.1")?;
    let (waited, started) = thread::join(
        &rt,
        move || time_to_fail(rt, &mut dialer, &name, port),
        || start_often(rt, 1500),
    );
    assert_eq!(rt; started, 1500);
    let waited = waited.ok_or("no fault")?;
    assert!(rt; Duration::from_millis(400) <= waited && waited < Duration::from_millis(1200));
    Ok(())
}
