// The level tables (O1, O4): one level for each context and kind.

// How many entries a context has.
pub const PER_CONTEXT: usize = 12;

// The levels in force (O1): at (context - 1) * PER_CONTEXT + kind, for the kinds 1 to 11; 0 where a context has no such kind.
pub const LEVELS: [u8; 84] = [
    0, 1, // ADM: H
    2, // ADM: P
    3, // ADM: AP
    4, // ADM: AC
    0, 0, 0, 0, 0, 0, 1, // ADM: L
    0, 1, // ORM: H
    2, // ORM: P
    0, 0, 3, // ORM: OBR
    4, // ORM: OBX
    0, 0, 0, 0, 1, // ORM: L
    0, 1, // ORA: H
    2, // ORA: P
    3, // ORA: AP
    4, // ORA: AC
    3, // ORA: OBR
    4, // ORA: OBX
    0, 0, 0, 0, 1, // ORA: L
    0, 1, // REG: H
    2, // REG: P
    0, 0, 0, 0, 0, 3, // REG: REG
    0, 0, 1, // REG: L
    0, 1, // ERR: H
    0, 0, 0, 0, 0, 0, 0, 0, 2, // ERR: ERR
    1, // ERR: L
    0, 1, // ORU: H
    2, // ORU: P
    0, 0, 3, // ORU: OBR
    4, // ORU: OBX
    0, 0, 0, 0, 1, // ORU: L
    0, 1, // FAC: H
    2, // FAC: P
    3, // FAC: AP
    4, // FAC: AC
    0, 0, 3, // FAC: FAC
    4, // FAC: REG
    4, // FAC: ACT
    0, 1, // FAC: L
];

// The former levels (O4), laid out in the same way: they differ in ORA and FAC alone.
pub const FORMER_LEVELS: [u8; 84] = [
    0, 1, // ADM: H
    2, // ADM: P
    3, // ADM: AP
    4, // ADM: AC
    0, 0, 0, 0, 0, 0, 1, // ADM: L
    0, 1, // ORM: H
    2, // ORM: P
    0, 0, 3, // ORM: OBR
    4, // ORM: OBX
    0, 0, 0, 0, 1, // ORM: L
    0, 1, // ORA: H
    2, // ORA: P
    3, // ORA: AP
    4, // ORA: AC
    5, // ORA: OBR
    6, // ORA: OBX
    0, 0, 0, 0, 1, // ORA: L
    0, 1, // REG: H
    2, // REG: P
    0, 0, 0, 0, 0, 3, // REG: REG
    0, 0, 1, // REG: L
    0, 1, // ERR: H
    0, 0, 0, 0, 0, 0, 0, 0, 2, // ERR: ERR
    1, // ERR: L
    0, 1, // ORU: H
    2, // ORU: P
    0, 0, 3, // ORU: OBR
    4, // ORU: OBX
    0, 0, 0, 0, 1, // ORU: L
    0, 1, // FAC: H
    2, // FAC: P
    3, // FAC: AP
    4, // FAC: AC
    0, 0, 5, // FAC: FAC
    6, // FAC: REG
    7, // FAC: ACT
    0, 1, // FAC: L
];
