// Frames forwarded through the tables of the cases.
use faults::Shown;
use tables::check_table;
use weights::WeightKind;

// Frames at port 1 go to ports 3 and 2, and once more to 3, unordered; all others nowhere.
pub const TABLE: &[u32] = &[
    0xA100_0003,
    0xB100_0001,
    0xC000_0001,
    0xD100_0003,
    0xC000_0001,
    0xD100_0002,
    0xC000_0001,
    0xD100_0003,
    0xA000_0000,
    0xE000_0002,
];

// Every frame goes to port 1 twice.
pub const JOINED: &[u32] = &[
    0xA000_0002,
    0xC000_0005,
    0xD100_0001,
    0xC000_0002,
    0xD100_0001,
    0xE000_0001,
];

// The answer's length, or the refusal, of forwarding through a table of the kind K.
pub(super) fn forwarded<K: WeightKind>(
    table: &[u32],
    frame: &[u32],
    memory: &mut [u32],
) -> Result<usize, Shown> {
    let table = check_table::<K>(table)?;
    Ok(table.forward(frame, memory)?)
}
