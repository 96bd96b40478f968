// The names of documents 01 and 02, and which number each stands for: a card's field its number, a register its word address.
#![tactic(auto)]

ghost use Rattle.std.specs.Prelude.{◌≡◌};
ghost use Rattle.names.specs.Names.{entries_of, named_in, field_named, register_named};

const FIELDS: [(&str, u32); 8] = [
    ("VOFFS", 1),
    ("IOFFS", 2),
    ("VGAIN", 3),
    ("IGAIN", 4),
    ("PHASE", 5),
    ("IRMSOFFS", 6),
    ("SQUELCH", 7),
    ("POFFS", 8),
];

const REGISTERS: [(&str, u32); 29] = [
    ("VA_RMS", 0x2B),
    ("IA_RMS", 0x3E),
    ("IA_PEAK", 0x46),
    ("WATT_A", 0x4B),
    ("VA_A", 0x4E),
    ("PFA", 0x65),
    ("IA_CREST", 0x8B),
    ("PA_POS_CNT", 0x8F),
    ("PA_NEG_CNT", 0x92),
    ("IB_RMS", 0x3F),
    ("IB_PEAK", 0x47),
    ("WATT_B", 0x4C),
    ("VA_B", 0x4F),
    ("PFB", 0x66),
    ("IB_CREST", 0x8C),
    ("PB_POS_CNT", 0x95),
    ("PB_NEG_CNT", 0x98),
    ("MIN1", 0x71),
    ("MIN2", 0x72),
    ("MIN3", 0x73),
    ("MIN4", 0x74),
    ("MIN5", 0x75),
    ("MIN6", 0x76),
    ("MAX1", 0x77),
    ("MAX2", 0x78),
    ("MAX3", 0x79),
    ("MAX4", 0x7A),
    ("MAX5", 0x7B),
    ("MAX6", 0x7C),
];

// The number of the first entry whose name is this text.
fn number_in(table: &[(&str, u32)], text: &[u8]) -> Option<u32>
    ensures { result ≡ named_in (entries_of table.now) text.now }
{
    let entry = table
        .iter()
        .find(|e| serial::same_text(e.0.as_bytes(), text))?;
    Some(entry.1)
}

// The number of the field with this name.
pub fn field(text: &[u8]) -> Option<u32>
    ensures { result ≡ field_named text.now }
{
    number_in(&FIELDS, text)
}

// The word address of the register with this name.
pub fn register(text: &[u8]) -> Option<u32>
    ensures { result ≡ register_named text.now }
{
    number_in(&REGISTERS, text)
}
