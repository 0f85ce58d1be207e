// Bytes and multi-byte fields of a part of a sheet or of a log, read and written. A byte past the end reads as 0, so that no check depends on one before it.
#![tactic(auto)]

ghost use Rattle.std.specs.Prelude.{◌≡◌, ◌+◌, ◌*◌, ◌<◌, ◌≤◌, ◌^◌, length};
ghost use Rattle.std.proofs.lemmas.List.Edits.{sets};
ghost use Rattle.fields.specs.Bytes.{byte_at, field_at, field_length, Ranged};
ghost use Rattle.fields.specs.Written.{field_bytes, fields};

pub const FIELD_LENGTH: usize = 4;

pub fn byte(part: &[u8], at: usize) -> u64
    ensures { Ranged (byte_at part.now at) (2 ^ 8) result }
{
    match part.get(at) {
        Some(&b) => u64::from(b),
        None => 0,
    }
}

// The bound keeps the place of the last byte within a usize; sheets are far shorter.
pub fn field(part: &[u8], at: usize) -> u32
    requires { at < 2 ^ 63 }
    ensures { result ≡ field_at part.now at }
{
    let a = byte(part, at) as u8;
    let b = byte(part, at + 1) as u8;
    let c = byte(part, at + 2) as u8;
    let d = byte(part, at + 3) as u8;
    u32::from_le_bytes([a, b, c, d])
}

// One field, from byte `at` on.
pub fn put_field(buffer: &mut [u8], at: usize, x: u32)
    requires { at + field_length ≤ length buffer.old }
    ensures { buffer.new ≡ sets buffer.old at (field_bytes x) }
{
    buffer[at..at + FIELD_LENGTH].copy_from_slice(&x.to_le_bytes());
}

// These values as fields, one after the other, from byte `at` on.
pub fn put_fields(buffer: &mut [u8], at: usize, values: &[u32])
    requires { at + field_length * length values.now ≤ length buffer.old }
    ensures { buffer.new ≡ sets buffer.old at (fields values.now) }
{
    for (j, &x) in values.iter().enumerate() {
        put_field(buffer, at + FIELD_LENGTH * j, x);
    }
}
