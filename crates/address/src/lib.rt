// Addresses of the bus: class, sub-address and rank of a master, its slave address, and the role of each address (01, "Addresses").
#![tactic(auto)]

ghost use Rattle.std.specs.Prelude.{◌≡◌};
ghost use Rattle.address.specs.Half.{half_index, half_at, class_of, sub_of};
ghost use Rattle.address.specs.Master.{rank_of, master_at, is_master, slave_of};
ghost use Rattle.address.specs.Role.{role_of};

// What an address is used for; Never: AA and A9, which mean something else on the wire.
#[derive(Clone, Copy)]
pub enum Role {
    Master,
    Slave,
    Broadcast,
    Never,
}

// The row stands here and, the other way round, in `half_at`, and nowhere else in the code.
#[tactic(auto, unfolding(crate::specs::Half::half_index))]
pub fn half_index(half: u8) -> Option<u8>
    ensures { result ≡ half_index half }
{
    match half {
        0x0 => Some(0),
        0x1 => Some(1),
        0x3 => Some(2),
        0x7 => Some(3),
        0xF => Some(4),
        _ => None,
    }
}

// The half in a place of the row, 0 past its end.
fn half_at(index: u32) -> u8
    ensures { result ≡ half_at index }
{
    match index {
        0 => 0x0,
        1 => 0x1,
        2 => 0x3,
        3 => 0x7,
        4 => 0xF,
        _ => 0x0,
    }
}

// The low half is the priority class.
#[tactic(auto, unfolding(crate::specs::Half::class_of))]
pub fn class_of(address: u8) -> Option<u8>
    ensures { result ≡ class_of address }
{
    half_index(address % 16)
}

// The high half is the sub-address.
#[tactic(auto, unfolding(crate::specs::Half::sub_of))]
pub fn sub_of(address: u8) -> Option<u8>
    ensures { result ≡ sub_of address }
{
    half_index(address / 16)
}

// Class first, then sub-address, so the class weighs five sub-addresses.
#[tactic(auto, using(crate::proofs::Halves::class_below, crate::proofs::Halves::sub_below), unfolding(crate::specs::Master::rank_of))]
pub fn rank_of(address: u8) -> Option<u8>
    ensures { result ≡ rank_of address }
{
    let class = class_of(address)?;
    let sub = sub_of(address)?;
    Some(5 * class + sub)
}

// The master of a rank, the way back from `rank_of`.
#[tactic(auto, unfolding(crate::specs::Master::master_at))]
pub fn master_at(rank: u32) -> u8
    ensures { result ≡ master_at rank }
{
    16 * half_at(rank % 5) + half_at(rank / 5)
}

// An address whose halves are both in the row has a rank, and no other has.
#[tactic(auto, using(crate::proofs::Masters::master_ranked))]
pub fn is_master(address: u8) -> bool
    ensures { result ≡ is_master address }
{
    rank_of(address).is_some()
}

// The address at which a master also answers; the sum wraps at FF alone of the masters.
#[tactic(auto, unfolding(crate::specs::Master::slave_of))]
pub fn slave_of(master: u8) -> u8
    ensures { result ≡ slave_of master }
{
    master.wrapping_add(5)
}

// What is neither a master nor one of the three exceptions is a slave.
#[tactic(auto, unfolding(crate::specs::Role::role_of))]
pub fn role_of(address: u8) -> Role
    ensures { result ≡ role_of address }
{
    match address {
        _ if is_master(address) => Role::Master,
        0xFE => Role::Broadcast,
        0xAA | 0xA9 => Role::Never,
        _ => Role::Slave,
    }
}
