// What the signs of a picture mean.
use memory::verdicts::Verdict;
use std::io;
use std::io::Write;

// A sign with its meaning.
#[derive(Clone, Copy)]
pub struct Entry {
    sign: &'static str,
    words: &'static str,
}

const AXIS: Entry = Entry {
    sign: "<path class='grid' d='M2 -6V6M12 -6V6M22 -6V6M32 -6V6M42 -6V6'/>",
    words: "Each reading of the run has a column, in their order; the distance of two columns is no length of time.",
};

const PERIODS: Entry = Entry {
    sign: "<rect class='store' x='0' y='-5' width='14' height='10'/><rect class='load' x='16' y='-5' width='14' height='10'/><rect class='fence' x='32' y='-5' width='14' height='10'/>",
    words: "A store, a load, a fence: its pending period, from its enter to its commit reading.",
};

const READS: Entry = Entry {
    sign: "<path class='reads' d='M0 0H38'/>",
    words: "From a store to a load that reads it.",
};

const OPPOSED: Entry = Entry {
    sign: "<path class='opposed' d='M0 0H36'/>",
    words: "From a record to one that must come after it, by the rule that is named: all that the two opposed lines rest on. Some of them close a cycle.",
};

const TRANSITIVE: Entry = Entry {
    sign: "",
    words: "Transitive lines (rule 7) put two others one behind the other. They are paths along arrows, and are not drawn.",
};

const PLACES: Entry = Entry {
    sign: "<text class='place' x='30' y='4'>1st</text>",
    words: "On the right, the place of each record in the legal order that the search found.",
};

const ORPHAN: Entry = Entry {
    sign: "<rect class='orphan' x='0' y='-5' width='44' height='10'/>",
    words: "The load that reads what no store of the run wrote.",
};

// The signs that each picture has.
const SIGNS: [Entry; 3] = [AXIS, PERIODS, READS];

// The signs that a picture has besides, by its verdict.
fn further(verdict: Option<Verdict>) -> &'static [Entry] {
    match verdict {
        Some(Verdict::Order) => &[PLACES],
        Some(Verdict::Opposed) => &[OPPOSED, TRANSITIVE],
        Some(Verdict::Orphan(_)) => &[ORPHAN],
        Some(Verdict::Exhausted) | None => &[],
    }
}

// From one line of the legend to the next.
const LINE: usize = 19;

// How high the legend is.
pub fn legend_height(verdict: Option<Verdict>) -> usize {
    let lines = SIGNS.len().saturating_add(further(verdict).len());
    lines.saturating_mul(LINE)
}

// The signs of a picture, one below the other.
pub fn legend<W: Write>(out: &mut W, top: usize, verdict: Option<Verdict>) -> io::Result<()> {
    let mut y = top;
    for Entry { sign, words } in SIGNS.iter().chain(further(verdict)) {
        writeln!(
            out,
            "<g transform='translate(10 {y})'>{sign}<text x='56' y='4'>{words}</text></g>"
        )?;
        y = y.saturating_add(LINE);
    }
    Ok(())
}
