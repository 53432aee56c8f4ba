//! Three senders of one turbine: each asks for a grant, takes it up, sends, and settles its ticket.
#![tactic(auto)]

mod uplink;

use farm::FateWord;
use std::io;
use uplink::{Denied, PACKET, Uplink};

/// A sender: the slot of its stream, what its records are of, and how many bytes of them it has.
struct Sender {
    slot: usize,
    name: &'static str,
    bytes: u64,
}

const SENDERS: [Sender; 3] = [
    Sender {
        slot: 0,
        name: "pitch",
        bytes: 612,
    },
    Sender {
        slot: 1,
        name: "bearing",
        bytes: 240,
    },
    Sender {
        slot: 2,
        name: "brake",
        bytes: 0,
    },
];

/// Sends records of so many bytes for a slot, and answers the grant under which they went.
///
/// A ticket is settled exactly once: the check refuses a sender that lets it go, and one that
/// settles it twice.
fn send(uplink: &mut Uplink, slot: usize, bytes: u64) -> Result<usize, Denied> {
    let ticket = uplink.ask(slot)?;
    let grant = ticket.number();
    uplink.settle(ticket, bytes)?;
    Ok(grant)
}

/// Lets one sender send, and prints what the ledger says of it.
fn run_sender(rt: &impl Print, uplink: &mut Uplink, sender: &Sender) -> io::Result<()> {
    let sent = send(uplink, sender.slot, sender.bytes);
    let name = sender.name;
    let note = if sender.bytes == 0 {
        ", nothing to send"
    } else {
        ""
    };
    let grant = match sent {
        Ok(grant) => grant,
        Err(denied) => return println!(rt; "  {name}{note}: {denied}"),
    };
    match uplink.row(grant) {
        Some(row) => {
            let (granted, sent, fate) = (row.granted, row.sent, FateWord(row.fate));
            println!(rt; "  {name}{note}: grant {grant}, {sent} of {granted} bytes sent, {fate}")
        }
        None => println!(rt; "  {name}{note}: no row"),
    }
}

/// Prints what was charged to a sender.
fn print_charged(rt: &impl Print, uplink: &Uplink, sender: &Sender) -> io::Result<()> {
    let name = sender.name;
    match uplink.charged(sender.slot) {
        Ok(charged) => println!(rt; "  {name}: {charged} bytes charged"),
        Err(refusal) => println!(rt; "  {name}: {}", Denied::Refused(refusal)),
    }
}

/// An uplink that the senders have joined.
fn joined() -> Result<Uplink, Denied> {
    let mut uplink = Uplink::new()?;
    for sender in &SENDERS {
        uplink.join(sender.slot)?;
    }
    Ok(uplink)
}

fn main(rt: HostRuntime) -> io::Result<()> {
    let Ok(mut uplink) = joined() else {
        return println!(rt; "The path was not made");
    };
    println!(rt; "Three senders of a turbine, packets of {PACKET} bytes")?;
    for sender in &SENDERS {
        run_sender(&rt, &mut uplink, sender)?;
    }
    println!(rt; "In the records of the streams")?;
    for sender in &SENDERS {
        print_charged(&rt, &uplink, sender)?;
    }
    Ok(())
}
