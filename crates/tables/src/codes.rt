// The codes that a declaration's words have for its kind and its role.
ghost use Rattle.std.specs.Prelude.{◌≡◌};
ghost use Rattle.rules.specs.Declarations.{role_code};
ghost use Rattle.tables.specs.Codes.{KindDecodes, RoleDecodes, role_as};

use rows::kinds::UnknownCode;

// What a declaration is; the code is the word.
#[derive(Clone, Copy, Debug, PartialEq, Eq)]
pub enum DeclKind {
    Plain,
    Constructor,
    Recursor,
    Structure,
}

impl TryFrom<u32> for DeclKind {
    type Error = UnknownCode;

    ghost try_from_gives = { KindDecodes };

    fn try_from(code: u32) -> Result<Self, UnknownCode> {
        match code {
            0 => Ok(DeclKind::Plain),
            1 => Ok(DeclKind::Constructor),
            2 => Ok(DeclKind::Recursor),
            3 => Ok(DeclKind::Structure),
            _ => Err(UnknownCode(code)),
        }
    }
}

// What the head rules and inference ask a declaration for by name; the code 0 is no role.
#[derive(Clone, Copy, Debug, PartialEq, Eq)]
pub enum Role {
    Nat = 1,
    Zero = 2,
    Succ = 3,
    True = 4,
    False = 5,
    QuotMk = 6,
    QuotLift = 7,
    QuotInd = 8,
    Add = 9,
    Sub = 10,
    Mul = 11,
    Div = 12,
    Mod = 13,
    Beq = 14,
    Ble = 15,
}

impl Role {
    pub fn code(self) -> usize
        ensures { result ≡ role_code (role_as self) }
    {
        self as usize
    }
}

impl TryFrom<u32> for Role {
    type Error = UnknownCode;

    ghost try_from_gives = { RoleDecodes };

    fn try_from(code: u32) -> Result<Self, UnknownCode> {
        match code {
            1 => Ok(Role::Nat),
            2 => Ok(Role::Zero),
            3 => Ok(Role::Succ),
            4 => Ok(Role::True),
            5 => Ok(Role::False),
            6 => Ok(Role::QuotMk),
            7 => Ok(Role::QuotLift),
            8 => Ok(Role::QuotInd),
            9 => Ok(Role::Add),
            10 => Ok(Role::Sub),
            11 => Ok(Role::Mul),
            12 => Ok(Role::Div),
            13 => Ok(Role::Mod),
            14 => Ok(Role::Beq),
            15 => Ok(Role::Ble),
            _ => Err(UnknownCode(code)),
        }
    }
}
