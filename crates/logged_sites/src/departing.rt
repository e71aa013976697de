//! A machine whose answers and posts go on leaving beside its calls.

use atx_sites::node_site::NodeSite;
use std::net::SocketAddr;
use system_calls::system::System;

/// A machine whose answers and posts go on leaving beside its calls, and may be lost, at once or behind them.
pub trait Departing {
    /// How many were lost.
    fn lost(&self) -> u64;

    /// The address from which the connection comes that is served, if one is.
    fn peer(&self) -> Option<SocketAddr>;

    /// Lets go out what still leaves, each until its own time is over.
    fn leave(&mut self);
}

impl<S: System + Drop> Departing for NodeSite<S> {
    fn lost(&self) -> u64 {
        self.lost()
    }

    fn peer(&self) -> Option<SocketAddr> {
        self.peer()
    }

    fn leave(&mut self) {
        self.leave();
    }
}
