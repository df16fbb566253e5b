//! The command `demo`: a gateway, a meter and the concentrator in one process, over a loopback socket to itself.

use dc_address::{Identity, Primary};
use dc_meters::House;
use dc_readout::{Bodies, Body, MeterScript, SimulatedMeter};
use dc_recovery::Store;
use dc_sectors::MemoryDisk;
use mbdc_bus::blocks::Gateway;
use mbdc_bus::world::{Looped, SimulatedBus};
use mbdc_commands::run_over;
use mbdc_ending::{Ending, STREAM};
use mbdc_files::{Host, Output};
use mbdc_io::{NoMemory, ReadSource, WriteSink};
use std::alloc::Global;
use std::fs::File;
use std::io;
use std::net::{Net, TcpListener, TcpStream};
use std::rt::Files;

// A port that the system chooses, on this machine alone.
const LOOPBACK: &str = "127.0.0.1:0";

// The sectors of the disk in memory: the fewest.
const SECTORS: u32 = 131;

// The meter is registered, read out, and its value at the due date reported.
const SCRIPT: &[u8] = b"AT 1735689600
OFFICE 1 FIT 12345678.PAD.01.07 1 1 A1
POLL 1 12345678.PAD.01.07
OFFICE REPORT 2024-12-31
";

// The bodies of its two telegrams: a volume; a date and the volume at that date.
const FIRST: &[u8] = b"\x78\x56\x34\x12\x24\x40\x01\x07\x01\0\0\0\x0C\x13\x78\x56\x34\x12\x1F";

const LAST: &[u8] =
    b"\x78\x56\x34\x12\x24\x40\x01\x07\x02\0\0\0\x42\x6C\x1F\x3C\x4C\x13\x00\x50\x34\x12";

// The gateway, over the stream that the concentrator reads, on which it is served on the way, and the one that it
// writes.
type OwnGateway = Gateway<
    Looped<ReadSource<TcpStream>, ReadSource<TcpStream>, WriteSink<TcpStream>, Global>,
    WriteSink<TcpStream>,
>;

/// Plays the demo, and prints what `run` prints of its script.
pub fn play<R>(host: &Host<'_, R>) -> Ending<'static>
where
    R: Files<File = File> + Net<Stream = TcpStream, Listener = TcpListener> + Print + AllocGlobal,
{
    let Ok(bus) = one_meter(host.rt.alloc()) else {
        return Ending::Memory;
    };
    let mut gateway = match join(host.rt, bus) {
        Ok(gateway) => Some(gateway),
        Err(error) => return host.why.link(None, error),
    };
    let Ok(disk) = MemoryDisk::new(host.rt.alloc(), SECTORS) else {
        return Ending::Memory;
    };
    let disk = match Store::format(disk) {
        Ok(disk) => disk,
        Err((fault, _)) => return Ending::Format(fault),
    };
    let out = Output::new(io::writer(host.rt), host, false);
    let (alloc, why) = (host.rt.alloc(), host.why);
    let (_, ending) = run_over(alloc, why, disk, SCRIPT, out, &mut gateway, &mut (), STREAM);
    ending
}

// A bus with the meter of the script on it.
fn one_meter(alloc: Global) -> Result<SimulatedBus<Global>, NoMemory> {
    let mut bodies = Bodies::new(alloc);
    bodies.push(Body::copied(alloc, FIRST)?)?;
    bodies.push(Body::copied(alloc, LAST)?)?;
    let mut bus = SimulatedBus::new(alloc);
    if let Ok(identity) = Identity::parse_text(b"12345678.PAD.01.07") {
        bus.add(SimulatedMeter::new(MeterScript {
            identity,
            address: Primary::new(1),
            bodies,
        }))?;
    }
    Ok(bus)
}

// A socket to this process itself. Each end has a handle to read and one to write.
fn join<R>(rt: &R, bus: SimulatedBus<Global>) -> io::Result<OwnGateway>
where
    R: Net<Stream = TcpStream, Listener = TcpListener>,
{
    let listener = TcpListener::bind(rt, LOOPBACK)?;
    let own = TcpStream::connect(rt, listener.local_addr()?)?;
    let (far, _) = listener.accept()?;
    let requests = ReadSource::new(far.try_clone()?);
    let answers = ReadSource::new(own.try_clone()?);
    let reader = Looped::new(answers, requests, WriteSink::new(far), bus);
    Ok(Gateway::new(reader, WriteSink::new(own)))
}
