// The fields that must have a text (R1), as data.
use form::kind::Kind;
use table::rows::Entry;

// A field by the kind of its segments and its name there (S5): field and subfield, the other
// numbers of its place being 1.
#[derive(Clone, Copy, PartialEq, Eq, Debug)]
pub struct Field {
    pub kind: Entry,
    pub field: Entry,
    pub subfield: Entry,
}

// How many there are.
pub const FIELDS: usize = 8;

// The fields, in the order of their rules.
pub const WANTED: [Field; FIELDS] = [
    // 8.6.1, the name in use
    Field {
        kind: Kind::P as Entry,
        field: 6,
        subfield: 1,
    },
    // 8.6.2, the first name
    Field {
        kind: Kind::P as Entry,
        field: 6,
        subfield: 2,
    },
    // 8.7, the birth name
    Field {
        kind: Kind::P as Entry,
        field: 7,
        subfield: 1,
    },
    // 8.13, the telephone
    Field {
        kind: Kind::P as Entry,
        field: 13,
        subfield: 1,
    },
    // 8.11.5, the postal code
    Field {
        kind: Kind::P as Entry,
        field: 11,
        subfield: 5,
    },
    // 9.4.2, the laboratory's number of the order
    Field {
        kind: Kind::OBR as Entry,
        field: 4,
        subfield: 2,
    },
    // 9.8, when the sample was taken
    Field {
        kind: Kind::OBR as Entry,
        field: 8,
        subfield: 1,
    },
    // 7.5.1, the laboratory
    Field {
        kind: Kind::H as Entry,
        field: 5,
        subfield: 1,
    },
];
