// A sheet of form 1, written to a lent buffer: a run of stores from each place on. A join alone calls this, for two task counts that have passed check 3; it
// writes once it knows that they are few enough together and that the buffer holds the sheet.
#![tactic(auto)]

ghost use Rattle.std.specs.Prelude.{◌≡◌, ◌∷◌, ◌++◌, ◌+◌, ◌*◌, ◌≤◌, length};
ghost use Rattle.std.proofs.lemmas.List.Edits.{sets};
ghost use Rattle.units.specs.Limits.{task_limit};
ghost use Rattle.fields.specs.Bytes.{field_length};
ghost use Rattle.fields.specs.Written.{fields};
ghost use Rattle.header.specs.Header.{pairs_start, pair_length};
ghost use Rattle.kinds.specs.Kinds.{weights_length};
ghost use Rattle.writing.specs.Form.{weights_start, platform_fields, pairs, header, form_one, written};
ghost use Rattle.writing.specs.Working.Ready.{ReadyForPairs, ReadyForHeader, ReadyForSheet};

use fields::{FIELD_LENGTH, put_fields};
use header::{FORM, PAIR_LENGTH, PAIRS_START};
use job::Platform;
use kinds::{PLATFORM_KIND, PLATFORM_LENGTH, WEIGHTS_KIND, length_of};

// How many fields a platform has.
pub const PLATFORM_FIELDS: usize = 7;

// Where the sections start, of which there are two.
const PLATFORM_START: usize = PAIRS_START + PAIR_LENGTH * 2;

const WEIGHTS_START: usize = PLATFORM_START + PLATFORM_LENGTH;

// The fields of a platform, in the sheet's order. No `From`: it would have to stand beside `Platform`, in a crate that knows no sheet.
pub fn fields_of(p: Platform) -> [u32; PLATFORM_FIELDS]
    ensures { result ≡ platform_fields p }
{
    [p.failstop, p.silent, p.cd, p.cm, p.v, p.rd, p.rm]
}

// How long the sheet of n tasks is.
pub fn sheet_length(n: usize) -> usize
    requires { n ≤ 2 * task_limit }
    ensures { result ≡ weights_start + weights_length n }
{
    WEIGHTS_START + length_of(WEIGHTS_KIND, n)
}

// The pairs of offset and length of sections of these sizes: each starts where the one before ends, the first after the pairs.
fn put_pairs(buffer: &mut [u8], sizes: &[usize])
    requires { ReadyForPairs sizes.now buffer.old }
    ensures { buffer.new ≡ sets buffer.old pairs_start (fields (pairs (pairs_start + pair_length * length sizes.now) sizes.now)) }
{
    let mut start = PAIRS_START + PAIR_LENGTH * sizes.len();
    for (i, &size) in sizes.iter().enumerate() {
        let pair = [start as u32, size as u32];
        put_fields(buffer, PAIRS_START + PAIR_LENGTH * i, &pair[..]);
        start += size;
    }
}

fn put_header(buffer: &mut [u8], n: usize, sizes: &[usize])
    requires { ReadyForHeader n sizes.now buffer.old }
    ensures { buffer.new ≡ sets buffer.old 0 (header n sizes.now) }
{
    buffer[0] = FORM as u8;
    buffer[1] = n as u8;
    buffer[2] = sizes.len() as u8;
    buffer[3] = 0;
    put_pairs(buffer, sizes);
}

// A section from byte `at` on: its kind, then these fields.
fn put_section(buffer: &mut [u8], at: usize, kind: u8, values: &[u32])
    requires { at + 1 + field_length * length values.now ≤ length buffer.old }
    ensures { buffer.new ≡ sets buffer.old at (kind ∷ fields values.now) }
{
    buffer[at] = kind;
    put_fields(buffer, at + 1, values);
}

// The sheet of a platform and of two lists of weights, one after the other, at the front of the buffer, and nothing else.
pub fn put_sheet(buffer: &mut [u8], p: Platform, early: &[u32], late: &[u32])
    requires { ReadyForSheet early.now late.now buffer.old }
    ensures { buffer.new ≡ written (form_one p (early.now ++ late.now)) buffer.old }
{
    let n = early.len() + late.len();
    let sizes = [PLATFORM_LENGTH, length_of(WEIGHTS_KIND, n)];
    let platform = fields_of(p);
    let seam = WEIGHTS_START + 1 + FIELD_LENGTH * early.len();
    put_header(buffer, n, &sizes[..]);
    put_section(buffer, PLATFORM_START, PLATFORM_KIND as u8, &platform[..]);
    put_section(buffer, WEIGHTS_START, WEIGHTS_KIND as u8, early);
    put_fields(buffer, seam, late);
}
