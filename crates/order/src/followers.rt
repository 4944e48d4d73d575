// The follower table (C4): in each context, which kind may come after which, C left out.
ghost use Rattle.std.specs.Prelude.{◌≡◌};
ghost use Rattle.order.specs.inner.Followers.{followers};

// How many entries a kind that stands has, and a context.
pub const PER_KIND: usize = 11;

pub const PER_CONTEXT: usize = 121;

// 1 where a kind may come next and 0 where it may not: at (context - 1) * 121 + (kind that stands - 1) * 11 + (kind that comes - 1).
pub const FOLLOWERS: [u8; 847] = [
    0, 1, // ADM: P after H
    0, 0, 0, 0, 0, 0, 0, 0, 0, 0, 1, // ADM: P after P
    1, // ADM: AP after P
    0, 0, 0, 0, 0, 0, 0, 1, // ADM: L after P
    0, 1, // ADM: P after AP
    0, 1, // ADM: AC after AP
    0, 0, 0, 0, 0, 0, 1, // ADM: L after AP
    0, 1, // ADM: P after AC
    0, 1, // ADM: AC after AC
    0, 0, 0, 0, 0, 0, 1, // ADM: L after AC
    0, 0, 0, 0, 0, 0, 0, 0, 0, 0, 0, 0, 0, 0, 0, 0, 0, 0, 0, 0, 0, 0, 0, 0, 0, 0, 0, 0, 0, 0, 0, 0,
    0, 0, 0, 0, 0, 0, 0, 0, 0, 0, 0, 0, 0, 0, 0, 0, 0, 0, 0, 0, 0, 0, 0, 0, 0, 0, 0, 0, 0, 0, 0, 0,
    0, 0, 0, 0, 0, 0, 0, 0, 0, 0, 0, 0, 0, 0, 1, // ORM: P after H
    0, 0, 0, 0, 0, 0, 0, 0, 0, 0, 0, 0, 0, 1, // ORM: OBR after P
    0, 0, 0, 0, 0, 0, 0, 0, 0, 0, 0, 0, 0, 0, 0, 0, 0, 0, 0, 0, 0, 0, 0, 0, 0, 0, 0, 0, 0, 1, // ORM: P after OBR
    0, 0, 1, // ORM: OBR after OBR
    1, // ORM: OBX after OBR
    0, 0, 0, 0, 1, // ORM: L after OBR
    0, 1, // ORM: P after OBX
    0, 0, 1, // ORM: OBR after OBX
    1, // ORM: OBX after OBX
    0, 0, 0, 0, 1, // ORM: L after OBX
    0, 0, 0, 0, 0, 0, 0, 0, 0, 0, 0, 0, 0, 0, 0, 0, 0, 0, 0, 0, 0, 0, 0, 0, 0, 0, 0, 0, 0, 0, 0, 0,
    0, 0, 0, 0, 0, 0, 0, 0, 0, 0, 0, 0, 0, 0, 0, 0, 0, 0, 0, 0, 0, 0, 0, 0, 1, // ORA: P after H
    0, 0, 0, 0, 0, 0, 0, 0, 0, 0, 0, 1, // ORA: AP after P
    0, 0, 0, 0, 0, 0, 0, 0, 0, 0, 0, 1, // ORA: AC after AP
    1, // ORA: OBR after AP
    0, 0, 0, 0, 0, 0, 0, 0, 0, 1, // ORA: AC after AC
    1, // ORA: OBR after AC
    0, 0, 0, 0, 0, 0, 0, 1, // ORA: P after OBR
    0, 0, 1, // ORA: OBR after OBR
    1, // ORA: OBX after OBR
    0, 0, 0, 0, 1, // ORA: L after OBR
    0, 1, // ORA: P after OBX
    0, 0, 1, // ORA: OBR after OBX
    1, // ORA: OBX after OBX
    0, 0, 0, 0, 1, // ORA: L after OBX
    0, 0, 0, 0, 0, 0, 0, 0, 0, 0, 0, 0, 0, 0, 0, 0, 0, 0, 0, 0, 0, 0, 0, 0, 0, 0, 0, 0, 0, 0, 0, 0,
    0, 0, 0, 0, 0, 0, 0, 0, 0, 0, 0, 0, 0, 0, 0, 0, 0, 0, 0, 0, 0, 0, 0, 0, 1, // REG: P after H
    0, 0, 0, 0, 0, 0, 0, 0, 0, 0, 0, 0, 0, 0, 0, 0, 1, // REG: REG after P
    0, 0, 0, 0, 0, 0, 0, 0, 0, 0, 0, 0, 0, 0, 0, 0, 0, 0, 0, 0, 0, 0, 0, 0, 0, 0, 0, 0, 0, 0, 0, 0,
    0, 0, 0, 0, 0, 0, 0, 0, 0, 0, 0, 0, 0, 0, 0, 0, 0, 0, 0, 0, 0, 0, 0, 0, 0, 0, 0, 1, // REG: P after REG
    0, 0, 0, 0, 0, 1, // REG: REG after REG
    0, 0, 1, // REG: L after REG
    0, 0, 0, 0, 0, 0, 0, 0, 0, 0, 0, 0, 0, 0, 0, 0, 0, 0, 0, 0, 0, 0, 0, 0, 0, 0, 0, 0, 0, 0, 0, 0,
    0, 0, 0, 0, 0, 0, 0, 0, 0, 0, 1, // ERR: ERR after H
    0, 0, 0, 0, 0, 0, 0, 0, 0, 0, 0, 0, 0, 0, 0, 0, 0, 0, 0, 0, 0, 0, 0, 0, 0, 0, 0, 0, 0, 0, 0, 0,
    0, 0, 0, 0, 0, 0, 0, 0, 0, 0, 0, 0, 0, 0, 0, 0, 0, 0, 0, 0, 0, 0, 0, 0, 0, 0, 0, 0, 0, 0, 0, 0,
    0, 0, 0, 0, 0, 0, 0, 0, 0, 0, 0, 0, 0, 0, 0, 0, 0, 0, 0, 0, 0, 0, 0, 0, 0, 0, 0, 0, 0, 0, 0, 0,
    0, 0, 1, // ERR: ERR after ERR
    1, // ERR: L after ERR
    0, 0, 0, 0, 0, 0, 0, 0, 0, 0, 0, 0, 1, // ORU: P after H
    0, 0, 0, 0, 0, 0, 0, 0, 0, 0, 0, 0, 0, 1, // ORU: OBR after P
    0, 0, 0, 0, 0, 0, 0, 0, 0, 0, 0, 0, 0, 0, 0, 0, 0, 0, 0, 0, 0, 0, 0, 0, 0, 0, 0, 0, 0, 0, 0, 0,
    0, 1, // ORU: OBX after OBR
    0, 0, 0, 0, 0, 0, 1, // ORU: P after OBX
    0, 0, 1, // ORU: OBR after OBX
    1, // ORU: OBX after OBX
    0, 0, 0, 0, 1, // ORU: L after OBX
    0, 0, 0, 0, 0, 0, 0, 0, 0, 0, 0, 0, 0, 0, 0, 0, 0, 0, 0, 0, 0, 0, 0, 0, 0, 0, 0, 0, 0, 0, 0, 0,
    0, 0, 0, 0, 0, 0, 0, 0, 0, 0, 0, 0, 0, 0, 0, 0, 0, 0, 0, 0, 0, 0, 0, 0, 1, // FAC: P after H
    0, 0, 0, 0, 0, 0, 0, 0, 0, 0, 0, 1, // FAC: AP after P
    0, 0, 0, 1, // FAC: FAC after P
    0, 0, 0, 0, 0, 0, 0, 1, // FAC: AC after AP
    0, 0, 1, // FAC: FAC after AP
    0, 0, 0, 0, 0, 0, 0, 1, // FAC: AC after AC
    0, 0, 1, // FAC: FAC after AC
    0, 0, 0, 0, 0, 0, 0, 0, 0, 0, 0, 0, 0, 0, 0, 0, 0, 0, 0, 0, 0, 0, 0, 0, 0, 0, 0, 1, // FAC: P after FAC
    0, 0, 0, 0, 1, // FAC: FAC after FAC
    1, // FAC: REG after FAC
    1, // FAC: ACT after FAC
    0, 1, // FAC: L after FAC
    0, 1, // FAC: P after REG
    0, 0, 0, 0, 1, // FAC: FAC after REG
    1, // FAC: REG after REG
    1, // FAC: ACT after REG
    0, 1, // FAC: L after REG
    0, 1, // FAC: P after ACT
    0, 0, 0, 0, 1, // FAC: FAC after ACT
    0, 1, // FAC: ACT after ACT
    0, 1, // FAC: L after ACT
    0, 0, 0, 0, 0, 0, 0, 0, 0, 0, 0, 0, 0, 0, 0, 0, 0, 0, 0, 0, 0, 0,
];

// The table, to be bound once and lent to each `tell_by`.
pub fn table() -> [u8; 847]
    ensures { result ≡ followers }
{
    FOLLOWERS
}
