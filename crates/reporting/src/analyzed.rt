// An analyzed contract, and the text of its acceptance.
ghost use Rattle.std.specs.Prelude.{◌≡◌, ◌≤◌, leb, length};
ghost use Rattle.reader.specs.Ceilings.{max_bytes};
ghost use Rattle.names.specs.Items.{NamedRow};
ghost use Rattle.paths.specs.Path.{table_of, WellFormed};
ghost use Rattle.reporting.specs.Text.{item_line, item_lines, path_line, path_lines, acceptance};
ghost use Rattle.reporting.specs.Bounds.{item_bound, items_bound, path_bound, paths_bound, acceptance_bound};
ghost use Rattle.reporting.specs.Fields.{entry_in};
ghost use Rattle.reporting.specs.Waits.{RowsBetween};
ghost use Rattle.reporting.specs.Formed.{Formed};
ghost use Rattle.reporting.specs.FormedProp.{Formed-prop};

use crate::waits::put_waits;
use crate::{LINE_END, put_fields, put_line, taker};
use declarations::Declared;
use names::item_at;
use output::{Counter, Sink, put_part};
use paths::{NamePlace, Path};
use rows::Rows;
use taken::is_taken;

// No longer are the lines of the waits: 1024 of at most 24 bytes.
const MOST_OF_WAITS: usize = 24576;

// A contract that was analyzed: its listing in n rows, its declarations and its paths, all of which can be read.
#[derive(Clone, Copy)]
pub struct Analyzed<'a> {
    pub rows: Rows<'a>,
    pub n: usize,
    pub declared: Declared,
    pub paths: &'a [Path; 32],
    ghost few: { declared.count ≤ 32 },
    ghost full: { length paths.now ≡ 32 },
    ghost formed: { Formed rows.listing.now rows.table.now declared paths.now } by { Formed-prop rows.listing.now rows.table.now declared paths.now },
    ghost short: { length rows.listing.now ≤ max_bytes },
    ghost block: { RowsBetween rows.table.now declared.block n },
}

impl Analyzed<'_> {
    ghost use Rattle.reporting.specs.Analyzed.{analysis_of};

    // P,position,type,taken,listing line that takes it,name: of the item in a place.
    fn put_item<S: Sink>(&self, sink: &mut S, k: u32, place: NamePlace, taken: bool)
        requires row { NamedRow self.now.rows.listing.now self.now.rows.table.now place.row }
        requires room { S.fits sink.old (item_line k (entry_in self.now.rows.listing.now self.now.rows.table.now place taken)) }
        ensures text { sink.new ≡ S.after sink.old (item_line k (entry_in self.now.rows.listing.now self.now.rows.table.now place taken)) }
        ensures short { length (item_line k (entry_in self.now.rows.listing.now self.now.rows.table.now place taken)) ≤ item_bound }
    {
        let item = item_at(self.rows.table, place.row as usize);
        let (took, line) = taker(taken, place.line);
        put_fields(sink, b"P,", k, &[u32::from(item.ty), took, line]);
        put_part(sink, item.name.of(self.rows.listing));
        sink.put(LINE_END);
    }

    // The items of a path, from the top.
    fn put_items<S: Sink>(&self, sink: &mut S, path: Path)
        requires formed { WellFormed self.now.rows.listing.now self.now.rows.table.now path }
        requires room { S.fits sink.old (item_lines 0 (table_of self.now.rows.listing.now self.now.rows.table.now path)) }
        ensures text { sink.new ≡ S.after sink.old (item_lines 0 (table_of self.now.rows.listing.now self.now.rows.table.now path)) }
        ensures short { length (item_lines 0 (table_of self.now.rows.listing.now self.now.rows.table.now path)) ≤ items_bound }
    {
        for k in 0..path.count {
            let place = path.places[k as usize];
            self.put_item(sink, k, place, is_taken(path.taken, k));
        }
    }

    // D,path,count, and the items of the path.
    fn put_path<S: Sink>(&self, sink: &mut S, p: u32, path: Path)
        requires formed { WellFormed self.now.rows.listing.now self.now.rows.table.now path }
        requires room { S.fits sink.old (path_line p (table_of self.now.rows.listing.now self.now.rows.table.now path)) }
        ensures text { sink.new ≡ S.after sink.old (path_line p (table_of self.now.rows.listing.now self.now.rows.table.now path)) }
        ensures short { length (path_line p (table_of self.now.rows.listing.now self.now.rows.table.now path)) ≤ path_bound }
    {
        put_line(sink, b"D,", p, &[path.count]);
        self.put_items(sink, path);
    }

    // Each path, from the first on.
    fn put_paths<S: Sink>(&self, sink: &mut S)
        requires room { S.fits sink.old (path_lines 0 (analysis_of self.now).tables) }
        ensures text { sink.new ≡ S.after sink.old (path_lines 0 (analysis_of self.now).tables) }
        ensures short { length (path_lines 0 (analysis_of self.now).tables) ≤ paths_bound }
    {
        for p in 0..self.declared.count {
            self.put_path(sink, p, self.paths[p as usize]);
        }
    }

    // A,paths, each path, and after the last one the waits in the rows of the block.
    pub fn put_acceptance<S: Sink>(&self, sink: &mut S)
        requires room { S.fits sink.old (acceptance (analysis_of self.now)) }
        ensures text { sink.new ≡ S.after sink.old (acceptance (analysis_of self.now)) }
        ensures short { length (acceptance (analysis_of self.now)) ≤ acceptance_bound }
    {
        put_line(sink, b"A,", self.declared.count, &[]);
        self.put_paths(sink);
        put_waits(self.rows.table, sink, self.declared.block as usize, self.n);
    }

    // Whether output has room for the acceptance. The paths are counted; the waits only where it depends on them.
    pub fn has_room(&self, output: &[u8]) -> bool
        ensures { result ≡ leb (length (acceptance (analysis_of self.now))) (length output.now) }
    {
        let mut counter = Counter { length: 0 };
        put_line(&mut counter, b"A,", self.declared.count, &[]);
        self.put_paths(&mut counter);
        if counter.length + MOST_OF_WAITS <= output.len() {
            return true;
        }
        put_waits(
            self.rows.table,
            &mut counter,
            self.declared.block as usize,
            self.n,
        );
        counter.length <= output.len()
    }
}
