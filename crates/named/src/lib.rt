// The opcodes that a rule names. Each rule has its list under a name of its own: one function that takes the list would leave the lists to those who ask.
#![tactic(auto)]

ghost use Rattle.std.specs.Prelude.{◌≡◌, [], ◌∷◌};
ghost use Rattle.rules.specs.Words.{one_of};

// This one.
pub fn is(op: u8, o: u8) -> bool
    ensures { result ≡ one_of op (o ∷ []) }
{
    op == o
}

// BUSY lets these through.
pub fn passes_busy(op: u8) -> bool
    ensures { result ≡ one_of op (0x05 ∷ 0x66 ∷ 0x99 ∷ 0xB0 ∷ []) }
{
    matches!(op, 0x05 | 0x66 | 0x99 | 0xb0)
}

// These need IOC.
pub fn needs_ioc(op: u8) -> bool
    ensures { result ≡ one_of op (0x6B ∷ 0x32 ∷ 0xEC ∷ []) }
{
    matches!(op, 0x6b | 0x32 | 0xec)
}

// These wait while anything is suspended.
pub fn must_wait(op: u8) -> bool
    ensures { result ≡ one_of op (0xC7 ∷ 0x01 ∷ 0x42 ∷ 0x8D ∷ 0xE8 ∷ 0x98 ∷ 0xA5 ∷ 0x85 ∷ []) }
{
    matches!(op, 0xc7 | 0x01 | 0x42 | 0x8d | 0xe8 | 0x98 | 0xa5 | 0x85)
}

// One sector or block erase.
pub fn erases(op: u8) -> bool
    ensures { result ≡ one_of op (0x20 ∷ 0xD8 ∷ []) }
{
    matches!(op, 0x20 | 0xd8)
}

// One page program.
pub fn programs(op: u8) -> bool
    ensures { result ≡ one_of op (0x02 ∷ 0x32 ∷ []) }
{
    matches!(op, 0x02 | 0x32)
}

// These change the protection register.
pub fn changes_locks(op: u8) -> bool
    ensures { result ≡ one_of op (0x42 ∷ 0x98 ∷ []) }
{
    matches!(op, 0x42 | 0x98)
}

// These change the Security ID.
pub fn to_security(op: u8) -> bool
    ensures { result ≡ one_of op (0xA5 ∷ 0x85 ∷ []) }
{
    matches!(op, 0xa5 | 0x85)
}

// These go to one block.
pub fn in_a_block(op: u8) -> bool
    ensures { result ≡ one_of op (0x20 ∷ 0xD8 ∷ 0x02 ∷ 0x32 ∷ []) }
{
    matches!(op, 0x20 | 0xd8 | 0x02 | 0x32)
}

// These need WEL: those that go to one block, and those that wait.
pub fn needs_wel(op: u8) -> bool
    ensures { result ≡ one_of op (0x20 ∷ 0xD8 ∷ 0xC7 ∷ 0x02 ∷ 0x32 ∷ 0xA5 ∷ 0x85 ∷ 0x01 ∷ 0xE8 ∷ 0x42 ∷ 0x8D ∷ 0x98 ∷ []) }
{
    in_a_block(op) | must_wait(op)
}
