// The worked examples of 000, section 5, in the paper's order: 5.1 the short form; 5.2.1 and 5.2.2 Read and Write; 5.2.3 and 5.2.4 Connection and Channel,
// which the codec does not read (01, "Frame record"); 5.3.1 "GATE SENSOR" and 5.3.2 "SDS  SENSOR", with the two blanks that the paper has.
// A label, then the ten bytes of the record. A label with a `*` marks an example whose row of values contradicts its own description: what
// is run is the description (docs/DECISIONS.md has the table).

pub(crate) const EXAMPLES: [(&str, [u8; codec::FRAME_SIZE]); 21] = [
    ("5.1.1", *b"\x99\x00\0\0\0\0\0\0\0\0"),
    ("5.1.2", *b"\x19\x40\0\0\0\0\0\0\0\0"),
    ("5.1.3", *b"\x24\xA0\0\0\0\0\0\0\0\0"),
    ("5.1.4", *b"\xA4\xE0\0\0\0\0\0\0\0\0"),
    ("5.2.1.1", *b"\x10\xA2\x00\x08\0\0\0\0\0\0"),
    ("5.2.1.2", *b"\x90\xA3\x40\x08\x03\0\0\0\0\0"),
    ("5.2.2.1", *b"\x4C\x83\x03\x0C\x0F\0\0\0\0\0"),
    ("5.2.2.2", *b"\xCC\x82\x43\x0C\0\0\0\0\0\0"),
    ("5.2.3.1", *b"\x86\x22\x00\x3D\0\0\0\0\0\0"),
    ("5.2.3.2", *b"\xBD\x22\x40\x06\0\0\0\0\0\0"),
    ("5.2.4.1", *b"\x11\x03\x16\x38\x55\0\0\0\0\0"),
    ("5.2.4.2*", *b"\xAE\x04\x01\x93\x76\x01\0\0\0\0"),
    ("5.2.4.3*", *b"\x96\x03\x50\x93\x76\0\0\0\0\0"),
    ("5.3.1.1", *b"\x20\xA2\x00\x38\0\0\0\0\0\0"),
    ("5.3.1.2", *b"\xA0\xA8\x60\x38\x00\x0BGATE"),
    ("5.3.1.3", *b"\xA0\xA8\x60\x38\x01\x0B SEN"),
    ("5.3.1.4", *b"\xA0\xA7\x60\x38\x02\x0BSOR\0"),
    ("5.3.2.1*", *b"\x20\x88\x20\x38\x00\x0BSDS "),
    ("5.3.2.2*", *b"\x20\x88\x20\x38\x01\x0B SEN"),
    ("5.3.2.3*", *b"\x20\x87\x20\x38\x02\x0BSOR\0"),
    ("5.3.2.4", *b"\xA0\x82\x40\x38\0\0\0\0\0\0"),
];
