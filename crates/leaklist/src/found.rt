// What is found of a file's recordings, in table order: each leak as three numbers, two ids and N; how many pairs of recordings only touch; how many triangle pairs were given to the triangle rules; and how many recordings were formerly held back.
ghost use Rattle.std.specs.Prelude.{◌≡◌, ◌++◌, ◌+◌, ◌*◌, ◌≤◌, ◌<◌, length};
ghost use Rattle.std.proofs.Props.{props};
ghost use Rattle.layout.specs.Parts.{count_of, entry_at, table_place};
ghost use Rattle.listing.specs.Leaks.{formerly_held_back};
ghost use Rattle.leaklist.specs.Code.{Gathering, IsTestIn, found_in, nothing, together, leaks_of, leak_on, item_of, row_to, test_of, list_to};

use crate::areas::asked_area;
use crate::tallies::Triangles;

// What is found so far: leaks as triples of numbers, with room for 64 times 64, more than any file has; and what is counted, the leaks among it.
// Stays a triple for a leak: docs/PROMISES.md has `writing::write` of numbers, and each three of those are seen as a triple, not as a struct, without a copy.
// Stays beside their number in `counts`: that is what the list is answered with, and the length of an `ArrayVec` would say it a second time.
#[derive(Drop)]
pub(crate) struct Found {
    pub(crate) triples: [[u32; 3]; 4096],
    pub(crate) counts: listing::Counts,
}

impl Found {
    // No leak, and nothing counted.
    pub(crate) fn nothing() -> Found
        ensures { (found_in result.triples result.counts ≡ nothing) × (result.counts.leaks ≡ 0) × (result.counts.touching ≡ 0) }
    {
        let counts = listing::Counts::default();
        Found {
            triples: [[0; 3]; 4096],
            counts,
        }
    }

    // One more leak, if the test recording and the training recording, of which this is kept, leak.
    fn add(&mut self, test: Test, train: u32, t: listing::Tally)
        requires { self.old.counts.leaks < 4096 }
        ensures { (leaks_of self.new.triples self.new.counts.leaks ≡ leaks_of self.old.triples self.old.counts.leaks ++ leak_on test.entry test.area train t) × (self.new.counts.leaks ≤ self.old.counts.leaks + 1) × (self.new.counts.touching ≡ self.old.counts.touching) × (self.new.counts.tested ≡ self.old.counts.tested) }
    {
        if counting::leak(test.entry.last, test.area, t) {
            let k = self.counts.leaks;
            self.triples[k as usize] = [test.entry.id, train, t.overlapping];
            self.counts.leaks += 1;
        }
    }
}

// A test recording: its number, its entry, and its own area where its edition asks for it.
#[derive(Clone, Copy)]
struct Test {
    number: usize,
    entry: layout::Entry,
    area: f64,
}

// A good file: its bytes, where its table begins, its triangles, and the own boxes of its recordings.
// Stays bytes and a place, no Footprint: its `entry(k)` is an Option and reads the trailer anew, and `formerly` reads one byte of an entry (docs/DECISIONS.md 169).
#[derive(Clone, Copy)]
pub(crate) struct Night<'a, 't> {
    pub(crate) file: &'a [u8],
    pub(crate) at: usize,
    pub(crate) triangles: Triangles<'t>,
    pub(crate) own: &'a [boxes::Box],
    pub(crate) ghost place: { at ≡ table_place file.now },
    pub(crate) ghost in_file: { at ≤ 65536 },
    pub(crate) ghost few: { length own.now ≤ 64 },
    pub(crate) ghost gathered: { Gathering file.now triangles.shapes.now triangles.bounds.now own.now } by { Prim.hlevel props },
}

impl<'a, 't> Night<'a, 't> {
    // The entry of recording k.
    fn entry(&self, k: usize) -> layout::Entry
        requires { k < length self.now.own.now }
        ensures { result ≡ entry_at self.now.file.now k }
    {
        reading::entry_at(self.file, self.at + 12 * k)
    }

    // The test recording with recording j, whose own boxes share a point.
    // Stays said in three contracts, in one word, `IsTestIn`: it ties a test to the night's file, whose bytes `Test` does not hold.
    fn add_near(&self, found: &mut Found, test: Test, j: usize)
        requires { IsTestIn self.now.file.now test.number test.entry test.area × (j < length self.now.own.now) × (found.old.counts.leaks < 4096) × (found.old.counts.touching < 4096) × (found.old.counts.tested + (item_of self.now.file.now test.number j).tested ≤ 4294967295) }
        ensures { (found_in found.new.triples found.new.counts ≡ together (found_in found.old.triples found.old.counts) (item_of self.now.file.now test.number j)) × (found.new.counts.leaks ≤ found.old.counts.leaks + 1) × (found.new.counts.touching ≤ found.old.counts.touching + 1) }
    {
        let f = self.entry(j);
        if sets::is_training(f.set) {
            let t = self.triangles.tally(test.entry, f, self.own[j]);
            found.add(test, f.id, t);
            found.counts.touching += counting::one_if(counting::only_touch(t));
            found.counts.tested += t.tested;
        }
    }

    // The same of any recording j: where their own boxes share no point, none of their triangles' do, and nothing is found.
    fn add_pair(&self, found: &mut Found, test: Test, j: usize)
        requires { IsTestIn self.now.file.now test.number test.entry test.area × (j < length self.now.own.now) × (found.old.counts.leaks < 4096) × (found.old.counts.touching < 4096) × (found.old.counts.tested + (item_of self.now.file.now test.number j).tested ≤ 4294967295) }
        ensures { (found_in found.new.triples found.new.counts ≡ together (found_in found.old.triples found.old.counts) (item_of self.now.file.now test.number j)) × (found.new.counts.leaks ≤ found.old.counts.leaks + 1) × (found.new.counts.touching ≤ found.old.counts.touching + 1) }
    {
        if boxes::share_point(self.own[test.number], self.own[j]) {
            self.add_near(found, test, j);
        }
    }

    // The test recording with each recording.
    fn add_row(&self, found: &mut Found, test: Test)
        requires { IsTestIn self.now.file.now test.number test.entry test.area × (found.old.counts.leaks + 64 ≤ 4096) × (found.old.counts.touching + 64 ≤ 4096) × (found.old.counts.tested + (row_to self.now.file.now test.number (count_of self.now.file.now)).tested ≤ 4294967295) }
        ensures { (found_in found.new.triples found.new.counts ≡ together (found_in found.old.triples found.old.counts) (row_to self.now.file.now test.number (count_of self.now.file.now))) × (found.new.counts.leaks ≤ found.old.counts.leaks + 64) × (found.new.counts.touching ≤ found.old.counts.touching + 64) }
    {
        for j in 0..self.own.len() {
            self.add_pair(found, test, j);
        }
    }

    // Recording i as a test recording, if it is one.
    fn add_test(&self, found: &mut Found, i: usize)
        requires { (i < length self.now.own.now) × (found.old.counts.leaks + 64 ≤ 4096) × (found.old.counts.touching + 64 ≤ 4096) × (found.old.counts.tested + (test_of self.now.file.now i).tested ≤ 4294967295) }
        ensures { (found_in found.new.triples found.new.counts ≡ together (found_in found.old.triples found.old.counts) (test_of self.now.file.now i)) × (found.new.counts.leaks ≤ found.old.counts.leaks + 64) × (found.new.counts.touching ≤ found.old.counts.touching + 64) }
    {
        let e = self.entry(i);
        if sets::is_test(e.set) {
            let test = Test {
                number: i,
                entry: e,
                area: asked_area(self.triangles.shapes, e),
            };
            self.add_row(found, test);
        }
    }

    // Everything, in table order, where nothing is found yet. It is lent: handed out, it would be on the stack twice.
    pub(crate) fn gather(&self, found: &mut Found)
        requires { (found_in found.old.triples found.old.counts ≡ nothing) × (found.old.counts.leaks ≡ 0) × (found.old.counts.touching ≡ 0) }
        ensures { (found_in found.new.triples found.new.counts ≡ list_to self.now.file.now (count_of self.now.file.now)) × (found.new.counts.leaks ≤ 4096) }
    {
        for i in 0..self.own.len() {
            self.add_test(found, i);
        }
    }

    // How many recordings were formerly held back, whether they meet a test recording or not. Of each entry of the table only its set is read.
    pub(crate) fn formerly(&self) -> u32
        ensures { result ≡ formerly_held_back self.now.file.now }
    {
        let mut sum: u32 = 0;
        for k in 0..self.own.len() {
            let set = reading::u8_at(self.file, self.at + 12 * k + 10);
            sum += counting::one_if(sets::is_retired(set));
        }
        sum
    }
}
