//! Instances of blocks that are parsed, checked and compiled: their values before and after their bodies.

ghost use Rattle.std.specs.Prelude.{◌≡◌, ◌<◌, IfOk};
ghost use Rattle.tdf_expr.specs.Checked.{IsChecked};
ghost use Rattle.tdf_expr.specs.Made.{AreMadeFor, block_count};

use std::alloc::Global;
use std::test::Fail;
use tdf_base::Memory;
use tdf_expr::{Body, Checked, Frame, Ports, check_bodies, run_body};
use tdf_fixed::{Raw, cast};
use tdf_lang_parser::parse;

/// A module with a variable, an array, a rate variable and all four bodies.
const MODULE: &[u8] = b"language 1
type w fixed 16 16
type h fixed 8 6 rnd sat
tdf acc
in x w
out y h
var v h 1.5
array a w 3 5 -6
rate r 1 4 2
set_attributes
rate x r
does_attribute_changes
end
initialize
v = 0.25
end
processing
for i 0 r
a[2] = a[2] + x[i]
end
y = v + a[0]
v = v >> 1
end
change_attributes
rate r = 5
rate r = 3
timestep 2us
reject_attribute_changes
accept_attribute_changes
end
reinitialize
v = -1
end
end
top
end
";

/// A block of two processes: the first counts and notifies, the second chooses.
const EVENTS: &[u8] = b"language 1
type b ufixed 1 1
type n fixed 8 8
de tick
de_in a b
de_out q n
event e
event f
var k n 126
process
sensitive e
k = k + 1
notify e after 3us
notify e after 1us
notify e after 2us
notify f
end
process
sensitive a
q = select(a, k, -1)
end
end
top
end
";

/// The compiled blocks of a text.
///
/// # Errors
/// Out of memory, and where the text has a fault.
fn checked_of(alloc: Global, text: &[u8]) -> Result<Checked, Memory>
    ensures { IfOk result (λ c. IsChecked c) }
{
    if 10_000 < text.len() {
        return Err(Memory);
    }
    match parse(alloc, text) {
        Err(_) => Err(Memory),
        Ok(tree) => match check_bodies(alloc, &tree) {
            Err(_) => Err(Memory),
            Ok(checked) => Ok(checked),
        },
    }
}

/// An instance of the block of a number.
///
/// # Errors
/// Out of memory.
fn instance(alloc: Global, checked: &Checked, number: u32) -> Result<(Frame, Ports), Memory>
    requires made { IsChecked checked.now }
    requires block { number < block_count checked.now }
    ensures { IfOk result (λ p. AreMadeFor checked.now number p.0 p.1) }
{
    let frame = Frame::new(alloc, checked, number)?;
    let ports = Ports::new(alloc, checked, number)?;
    Ok((frame, ports))
}

/// An activation begins.
fn begin(checked: &Checked, number: u32, frame: &Frame, ports: &mut Ports)
    requires { AreMadeFor checked.now number frame.now ports.old }
    ensures { AreMadeFor checked.now number frame.now ports.new }
{
    ports.reset();
}

/// Sets a sample of a port, where there is one, to a whole number in the port's format.
fn put(
    checked: &Checked,
    number: u32,
    frame: &Frame,
    ports: &mut Ports,
    port: u32,
    i: u32,
    value: i16,
)
    requires { AreMadeFor checked.now number frame.now ports.old }
    ensures { AreMadeFor checked.now number frame.now ports.new }
{
    if (port as usize) < ports.ports() {
        let span = ports.port(port);
        if i < span.count {
            let raw = Raw {
                num: i128::from(value),
                frac: 0,
            };
            ports.set(port, i, cast(raw, span.format));
        }
    }
}

/// A sample, in units of its last place, with its bits after the point; none where there is no such sample.
fn sample(ports: &Ports, port: u32, i: u32) -> Option<(i128, u32)> {
    if port as usize >= ports.ports() {
        return None;
    }
    let span = ports.port(port);
    if i >= span.count {
        return None;
    }
    let raw = ports.sample(port, i);
    Some((raw.num, raw.frac))
}

/// A cell, in units of its last place, with its bits after the point; none where there is no such cell.
fn cell(frame: &Frame, i: u32) -> Option<(i128, u32)> {
    if i >= frame.cells() {
        return None;
    }
    let raw = frame.cell(i);
    Some((raw.num, raw.frac))
}

/// A rate variable; none where there is no such variable.
fn rate(checked: &Checked, number: u32, frame: &Frame, ports: &Ports, i: u32) -> Option<u32>
    requires { AreMadeFor checked.now number frame.now ports.now }
{
    if i >= checked.rates(number) {
        return None;
    }
    Some(frame.rate(i))
}

/// What was asked of an event; none where there is no such event or nothing was asked.
fn notified(checked: &Checked, number: u32, frame: &Frame, ports: &Ports, event: u32) -> Option<u64>
    requires { AreMadeFor checked.now number frame.now ports.now }
{
    if event >= checked.events(number) {
        return None;
    }
    ports.notified(event)
}

// An instance begins with the declared values: 1.5 is 6 quarters, the third element isn't given. The input has as many
// samples as its greatest rate, 4.
#[test]
fn starts(rt: HostRuntime) -> Result<(), Fail> {
    let checked = checked_of(rt.alloc(), MODULE)?;
    if checked.blocks() == 0 {
        return Err(Fail::from(Memory));
    }
    let (frame, ports) = instance(rt.alloc(), &checked, 0)?;
    assert!(rt; cell(&frame, 0) == Some((6, 2)) && cell(&frame, 1) == Some((5, 0)));
    assert!(rt; cell(&frame, 2) == Some((-6, 0)) && cell(&frame, 3) == Some((0, 0)));
    assert!(rt; cell(&frame, 4) == None && rate(&checked, 0, &frame, &ports, 0) == Some(2));
    assert!(rt; sample(&ports, 0, 3) == Some((0, 0)) && sample(&ports, 0, 4) == None);
    Ok(())
}

// The variable is 0.25 after `initialize`. The sum of 7 and -3 is added to the third element; the output is 0.25 + 5, 21
// quarters; half of 0.25 is rounded up to 0.25.
#[test]
fn processing(rt: HostRuntime) -> Result<(), Fail> {
    let checked = checked_of(rt.alloc(), MODULE)?;
    if checked.blocks() == 0 {
        return Err(Fail::from(Memory));
    }
    let (mut frame, mut ports) = instance(rt.alloc(), &checked, 0)?;
    run_body(&checked, 0, Body::Initialize, &mut frame, &mut ports);
    put(&checked, 0, &frame, &mut ports, 0, 0, 7);
    put(&checked, 0, &frame, &mut ports, 0, 1, -3);
    run_body(&checked, 0, Body::Processing, &mut frame, &mut ports);
    assert!(rt; cell(&frame, 3) == Some((4, 0)) && cell(&frame, 0) == Some((1, 2)));
    assert!(rt; sample(&ports, 1, 0) == Some((21, 2)));
    begin(&checked, 0, &frame, &mut ports);
    assert!(rt; sample(&ports, 1, 0) == Some((0, 2)) && sample(&ports, 0, 1) == Some((-3, 0)));
    Ok(())
}

// 5 is not allowed, 3 is; the last answer stands. Then -1 is -4 quarters.
#[test]
fn changes(rt: HostRuntime) -> Result<(), Fail> {
    let checked = checked_of(rt.alloc(), MODULE)?;
    if checked.blocks() == 0 {
        return Err(Fail::from(Memory));
    }
    let (mut frame, mut ports) = instance(rt.alloc(), &checked, 0)?;
    run_body(&checked, 0, Body::Change, &mut frame, &mut ports);
    assert!(rt; rate(&checked, 0, &frame, &ports, 0) == Some(3) && ports.out_of_range());
    assert!(rt; ports.step(0) == Some(2_000_000) && ports.accepts() == Some(true));
    run_body(&checked, 0, Body::Reinitialize, &mut frame, &mut ports);
    assert!(rt; cell(&frame, 0) == Some((-4, 2)));
    Ok(())
}

// 126 and two is -128 in eight bits; of three times the least stands, and a delta notification is 0.
#[test]
fn processes(rt: HostRuntime) -> Result<(), Fail> {
    let checked = checked_of(rt.alloc(), EVENTS)?;
    if checked.blocks() == 0 {
        return Err(Fail::from(Memory));
    }
    let (mut frame, mut ports) = instance(rt.alloc(), &checked, 0)?;
    run_body(&checked, 0, Body::Process(1), &mut frame, &mut ports);
    assert!(rt; sample(&ports, 1, 0) == Some((-1, 0)));
    run_body(&checked, 0, Body::Process(0), &mut frame, &mut ports);
    run_body(&checked, 0, Body::Process(0), &mut frame, &mut ports);
    assert!(rt; notified(&checked, 0, &frame, &ports, 0) == Some(1_000_000));
    assert!(rt; notified(&checked, 0, &frame, &ports, 1) == Some(0));
    put(&checked, 0, &frame, &mut ports, 0, 0, 1);
    run_body(&checked, 0, Body::Process(1), &mut frame, &mut ports);
    assert!(rt; sample(&ports, 1, 0) == Some((-128, 0)));
    Ok(())
}
