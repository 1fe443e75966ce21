//! The sockets of a real system: a dialer, and doors whose connections wait in one room. Each counts the calls that failed, and shows no content.
#![tactic(auto)]

mod accepting;
mod door;
mod door_link;
mod door_watch;
mod exchange;
mod notices;
mod pending;
mod room;
mod tcp;
mod waiting_room;

pub use door::TcpDoor;
pub use door_link::DoorLink;
pub use door_watch::{DoorWatch, SharedWatch};
pub use notices::Notices;
pub use tcp::{TcpDialer, TcpLink};
