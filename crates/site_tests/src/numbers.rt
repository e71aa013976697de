//! The numbers of what is open at once on a real machine.

use libc::net::POLLIN;
use libc::types::pollfd;
use real_system::real_system::RealSystem;
use std::io;
use std::net::{SocketAddr, TcpListener};
use std::os::fd::AsRawFd;
use std::test::Fail;
use system_calls::system::System;

/// As many connections as are open at once.
const CONNECTIONS: usize = 8;

/// An address of the loopback at which nothing listens.
fn free(rt: &HostRuntime) -> io::Result<SocketAddr> {
    TcpListener::bind(rt, "127.0.0.1:0")?.local_addr()
}

/// Accepts a connection, once there is one.
fn accepts<S: System>(system: &mut S, listener: &S::Listener) -> io::Result<S::Stream> {
    let mut asks = [pollfd {
        fd: listener.as_raw_fd(),
        events: POLLIN,
        revents: 0,
    }];
    system.poll(&mut asks, 5000);
    match system.accept(listener) {
        Ok((stream, _)) => Ok(stream),
        Err(fault) => Err(fault),
    }
}

/// The numbers of a listener, and of both ends of some connections, all open at once.
fn numbers<S: System>(
    rt: &HostRuntime,
    system: &mut S,
    address: &SocketAddr,
) -> io::Result<Vec<i32>> {
    let name = format!(in rt.alloc(); "{address}")?;
    let listener = system.listen(name.as_str())?;
    let mut numbers = vec![in rt.alloc(); listener.as_raw_fd()]?;
    let mut open = Vec::new(rt.alloc());
    for _ in 0..CONNECTIONS {
        let begun = system.connect(address)?;
        let accepted = accepts(system, &listener)?;
        numbers.push(begun.as_raw_fd())?;
        numbers.push(accepted.as_raw_fd())?;
        open.push(begun)?;
        open.push(accepted)?;
    }
    Ok(numbers)
}

#[test]
fn numbers_of_what_is_open_differ(rt: HostRuntime) -> Result<(), Fail> {
    let address = free(&rt)?;
    let mut numbers = numbers(&rt, &mut RealSystem::new(&rt), &address)?;
    numbers.sort()?;
    numbers.dedup();
    assert!(rt; numbers.len() == 2 * CONNECTIONS + 1, "{}", numbers.len());
    Ok(())
}
