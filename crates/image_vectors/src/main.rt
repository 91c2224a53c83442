// Runs every field reader over configuration streams that Linux's own driver packed, and prints what each reads. The file stdout holds the fields as the
// texts beside those streams give them; tests/vectors/fields.py made it and says how. The loader's steps put each stream into an image,
// all but its last word, the global checksum: that word runs the rules, two of these streams break one, and a refusal leaves zeros. A stream that is refused
// before is never printed, nor is one behind it.
#![tactic(auto)]

ghost use Rattle.image.specs.Layout.{Held};
ghost use Rattle.image.specs.Sound.{Bounded};
ghost use Rattle.image.specs.declared.tables.Table.TheVariants.{AddressLookup, Policing, VlanLookup, Forwarding, MacConfiguration, ForwardingParameters, Retagging};

use fields::{address, forwarding, mac, parameters, policing, retagging, vlan};
use image::tables::{TABLES, Table};
use image::{IMAGE_WORDS, count, tables};
use input::fill;
use std::io;
use std::io::Write;
use stream::bytes::word_at;
use stream::{Phase, states};

fn print_address<W: Write>(out: &mut W, image: &[u32], i: usize) -> io::Result<()>
    requires { Held AddressLookup i image.now }
{
    let vlanid = address::vlanid(image, i);
    let macaddr = address::macaddr(image, i);
    let destports = address::destports(image, i);
    let enfport = address::enfport(image, i);
    let index = address::index(image, i);
    writeln!(
        out,
        "05 {i} {vlanid} {macaddr:012x} {destports} {enfport} {index}"
    )
}

fn print_policing<W: Write>(out: &mut W, image: &[u32], i: usize) -> io::Result<()>
    requires { Held Policing i image.now }
{
    let sharindx = policing::sharindx(image, i);
    let smax = policing::smax(image, i);
    let rate = policing::rate(image, i);
    let maxlen = policing::maxlen(image, i);
    let partition = policing::partition(image, i);
    writeln!(out, "06 {i} {sharindx} {smax} {rate} {maxlen} {partition}")
}

fn print_vlan<W: Write>(out: &mut W, image: &[u32], i: usize) -> io::Result<()>
    requires { Held VlanLookup i image.now }
{
    let vmemb_port = vlan::vmemb_port(image, i);
    let vlan_bc = vlan::vlan_bc(image, i);
    let tag_port = vlan::tag_port(image, i);
    let vlanid = vlan::vlanid(image, i);
    writeln!(out, "07 {i} {vmemb_port} {vlan_bc} {tag_port} {vlanid}")
}

fn print_forwarding<W: Write>(out: &mut W, image: &[u32], i: usize) -> io::Result<()>
    requires { Held Forwarding i image.now }
{
    let bc_domain = forwarding::bc_domain(image, i);
    let reach_port = forwarding::reach_port(image, i);
    let fl_domain = forwarding::fl_domain(image, i);
    write!(out, "08 {i} {bc_domain} {reach_port} {fl_domain}")?;
    for j in 0..8 {
        let vlan_pmap = forwarding::vlan_pmap(image, i, j);
        write!(out, " {vlan_pmap}")?;
    }
    writeln!(out)
}

fn print_mac<W: Write>(out: &mut W, image: &[u32], i: usize) -> io::Result<()>
    requires { Held MacConfiguration i image.now }
{
    let vlanprio = mac::vlanprio(image, i);
    let vlanid = mac::vlanid(image, i);
    let drpuntag = mac::drpuntag(image, i);
    let egress = mac::egress(image, i);
    let ingress = mac::ingress(image, i);
    writeln!(
        out,
        "09 {i} {vlanprio} {vlanid} {drpuntag} {egress} {ingress}"
    )
}

fn print_spaces<W: Write>(out: &mut W, image: &[u32]) -> io::Result<()>
    requires { Held ForwardingParameters 0 image.now }
{
    write!(out, "0E 0")?;
    for j in 0..8 {
        let part_spc = parameters::part_spc(image, j);
        write!(out, " {part_spc}")?;
    }
    writeln!(out)
}

fn print_retagging<W: Write>(out: &mut W, image: &[u32], i: usize) -> io::Result<()>
    requires { Held Retagging i image.now }
{
    let ing_port = retagging::ing_port(image, i);
    let vlan_ing = retagging::vlan_ing(image, i);
    let vlan_egr = retagging::vlan_egr(image, i);
    writeln!(out, "12 {i} {ing_port} {vlan_ing} {vlan_egr}")
}

// Entry i of a table; 11 and 4E have no field in use.
fn print_entry<W: Write>(out: &mut W, image: &[u32], table: Table, i: usize) -> io::Result<()>
    requires { Held table i image.now }
{
    match table {
        Table::AddressLookup => print_address(out, image, i),
        Table::Policing => print_policing(out, image, i),
        Table::VlanLookup => print_vlan(out, image, i),
        Table::Forwarding => print_forwarding(out, image, i),
        Table::MacConfiguration => print_mac(out, image, i),
        Table::LookupParameters => {
            let shared_learn = parameters::shared_learn(image);
            writeln!(out, "0D {i} {shared_learn}")
        }
        Table::ForwardingParameters => print_spaces(out, image),
        Table::GeneralParameters => writeln!(out, "11 {i}"),
        Table::XmiiModeParameters => writeln!(out, "4E {i}"),
        Table::Retagging => print_retagging(out, image, i),
    }
}

// The reader of 0D is asked where the table is absent too: there SHARED_LEARN is clear.
fn print_absent<W: Write>(out: &mut W, image: &[u32], table: Table) -> io::Result<()>
    requires { Bounded image.now }
{
    if table == Table::LookupParameters {
        let shared_learn = parameters::shared_learn(image);
        writeln!(out, "0D absent {shared_learn}")?;
    }
    Ok(())
}

// Table by table and entry by entry.
fn print_image<W: Write>(out: &mut W, image: &[u32]) -> io::Result<()>
    requires { Bounded image.now }
{
    for k in 0..TABLES {
        let table = tables::table_at(k);
        let entries = count(image, table);
        for i in 0..entries {
            print_entry(out, image, table, i)?;
        }
        if entries == 0 {
            print_absent(out, image, table)?;
        }
    }
    Ok(())
}

// What is printed before a word is sent: a stream's first word, and where its last is next, the image. The end block has length 0, and its third word is the
// last. The answer is whether this word is.
fn print_before<W: Write>(
    out: &mut W,
    image: &[u32],
    phase: Phase,
    second: u32,
    word: u32,
) -> io::Result<bool>
    requires { Bounded image.now }
{
    match phase {
        Phase::Device => writeln!(out, "device {word:08x}")?,
        Phase::Sum if second % 16777216 == 0 => {
            print_image(out, image)?;
            return Ok(true);
        }
        _ => {}
    }
    Ok(false)
}

fn main(rt: HostRuntime) -> io::Result<()> {
    // A fixed buffer: no memory is asked for here.
    let mut bytes = [0u8; 65536];
    let n = fill(&mut rt.reader(), &mut bytes).count;
    let mut out = io::writer(&rt);
    let mut image = [0u32; IMAGE_WORDS];
    let mut load = states::fresh();
    let (fours, _) = bytes[..n].as_chunks::<4>();
    for four in fours {
        let word = word_at(four, 0);
        if print_before(&mut out, &image, load.phase, load.second, word)? {
            image = [0u32; IMAGE_WORDS];
            load = states::fresh();
        } else {
            load = loader::step(&mut image, load, word);
        }
    }
    Ok(())
}
