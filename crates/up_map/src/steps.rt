ghost use Rattle.std.specs.Prelude.{◌≡◌, ◌<◌, ◌^◌, decimal, option_map};
ghost use Rattle.up_text.specs.Lists.{Every};
ghost use Rattle.up_line.specs.Sheet.{after};
ghost use Rattle.up_line.specs.Steps.{StepsFrom, StepsOn};
ghost use Rattle.up_line.specs.Spaced.{spaced};
ghost use Rattle.up_map.specs.Texts.{item_text, target_text, entry_line, chain_line, stage_text, entry_lines};
ghost use Rattle.up_map.specs.Rests.{map_rest};
ghost use Rattle.up_map.specs.Spells.{HasName, HasNames, IsEntry};

use crate::map::Map;
use itoa::Buffer;
use up_compiler::{CompilerId, Entry, Item, Target};
use up_line::{Line, Steps};

// The next line of a map.
#[derive(Clone, Copy)]
pub enum MapPlace<'p> {
    Head,
    Chain,
    Entries(&'p [Entry]),
    Done,
}

// A map from a place on.
#[derive(Clone, Copy)]
pub struct MapSteps<'p> {
    pub map: &'p Map,
    pub place: MapPlace<'p>,
}

fn put_count(line: &mut Line, count: usize)
    ensures text { line.new ≡ after line.old (decimal count) }
    ensures word { count < 2 ^ 64 }
{
    let mut buffer = Buffer::new();
    line.put(buffer.format(count).as_bytes());
}

#[tactic(auto, using(up_line::proofs::Sheets::puts))]
fn put_item(line: &mut Line, item: &Item)
    ensures text { line.new ≡ after line.old (item_text item.now) }
    ensures name { HasName item.now }
{
    match item {
        Item::Argument(place) => {
            line.put(b"$");
            put_count(line, *place);
        }
        Item::Object(name) => line.put(name.bytes()),
    }
}

// Items, each with a space before it.
#[tactic(auto, using(up_line::proofs::Sheets::puts))]
fn put_items(line: &mut Line, items: &[Item])
    ensures text { line.new ≡ after line.old (spaced item_text items.now) }
    ensures names { Every HasName items.now }
{
    for item in items {
        line.put(b" ");
        put_item(line, item);
    }
}

#[tactic(auto, using(up_line::proofs::Sheets::puts))]
fn put_target(line: &mut Line, target: &Target)
    ensures text { line.new ≡ after line.old (target_text target.now) }
    ensures names { HasNames target.now }
{
    match target {
        Target::Drop => line.put(b" drop"),
        Target::Keep(name, items) => {
            line.put(b" keep ");
            line.put(name.bytes());
            put_items(line, items.as_slice());
        }
    }
}

#[tactic(auto, using(up_line::proofs::Sheets::puts))]
pub fn put_entry(line: &mut Line, entry: &Entry)
    ensures text { line.new ≡ after line.old (entry_line entry.now) }
    ensures entry { IsEntry entry.now }
{
    line.put(b"action ");
    line.put(entry.action.bytes());
    line.put(b" ");
    put_count(line, entry.arity);
    put_target(line, &entry.target);
    line.put(b"\n");
}

// The names of compilers, each with a space before it.
#[tactic(auto, using(up_line::proofs::Sheets::puts))]
fn put_stages(line: &mut Line, stages: &[CompilerId])
    ensures { line.new ≡ after line.old (spaced stage_text stages.now) }
{
    for stage in stages {
        line.put(b" ");
        line.put(stage.name().as_bytes());
    }
}

#[tactic(auto, using(up_line::proofs::Sheets::puts))]
pub fn put_chain(line: &mut Line, stages: &[CompilerId])
    ensures { line.new ≡ after line.old (chain_line stages.now) }
{
    line.put(b"chain");
    put_stages(line, stages);
    line.put(b"\n");
}

impl<'p> MapSteps<'p> {
    #[tactic(auto, using(up_line::proofs::Sheets::puts))]
    fn put_entry_line(&self, line: &mut Line, entries: &'p [Entry]) -> MapPlace<'p>
        ensures { StepsFrom line.old line.new (entry_lines entries.now) (map_rest self.now.map.now result) }
    {
        match entries.split_first() {
            Some((entry, others)) => {
                put_entry(line, entry);
                MapPlace::Entries(others)
            }
            None => {
                line.put(b"end\n");
                MapPlace::Done
            }
        }
    }

    // Puts the next line, and answers the place behind it.
    fn go_on(&self, line: &mut Line) -> Option<MapPlace<'p>>
        ensures { StepsOn line.old line.new (map_rest self.now.map.now self.now.place) (option_map (map_rest self.now.map.now) result) }
    {
        match self.place {
            MapPlace::Head => {
                line.put(b"up-map 1\n");
                Some(MapPlace::Chain)
            }
            MapPlace::Chain => {
                put_chain(line, self.map.stages.stages.as_slice());
                Some(MapPlace::Entries(self.map.back.entries().as_slice()))
            }
            MapPlace::Entries(entries) => Some(self.put_entry_line(line, entries)),
            MapPlace::Done => None,
        }
    }
}

impl Steps for MapSteps<'_> {
    ghost use Rattle.up_map.specs.Walk.{map_left};
    ghost use Rattle.up_line.specs.Steps.{first};

    ghost pieces = { map_left };

    ghost piece = { λ s. first (map_left s) };

    fn step(&mut self, line: &mut Line) -> bool {
        match self.go_on(line) {
            Some(place) => {
                self.place = place;
                true
            }
            None => false,
        }
    }
}
