//! The choices that states are made of, with their numbers.

ghost use Rattle.std.specs.Prelude.{◌≡◌, ◌≢◌, IfSome, IfNone};

/// Which triangles are dropped by their facing.
#[derive(Clone, Copy, Debug, PartialEq, Eq)]
pub enum Cull {
    None = 1,
    Front = 2,
    Back = 3,
}

impl Cull {
    ghost use Rattle.gfxspec.specs.declared.state.Cull.{Cull};
    ghost use Rattle.gfxspec.specs.Numbers.{cull_number};

    /// Its number in Direct3D.
    pub fn number(self) -> u32
        ensures { result ≡ cull_number self }
    {
        self as u32
    }

    /// The one that has a number, if there is one.
    pub fn from_number(number: u32) -> Option<Self>
        ensures some { IfSome result (λ one. cull_number one ≡ number) }
        ensures none { IfNone result ((one : Cull) → cull_number one ≢ number) }
    {
        match number {
            1 => Some(Cull::None),
            2 => Some(Cull::Front),
            3 => Some(Cull::Back),
            _ => None,
        }
    }
}

/// How vertices are assembled.
#[derive(Clone, Copy, Debug, PartialEq, Eq)]
pub enum Topology {
    TriangleList = 4,
    TriangleStrip = 5,
}

impl Topology {
    ghost use Rattle.gfxspec.specs.declared.state.Topology.{Topology};
    ghost use Rattle.gfxspec.specs.Numbers.{topology_number};

    /// Its number in Direct3D.
    pub fn number(self) -> u32
        ensures { result ≡ topology_number self }
    {
        self as u32
    }

    /// The one that has a number, if there is one.
    pub fn from_number(number: u32) -> Option<Self>
        ensures some { IfSome result (λ one. topology_number one ≡ number) }
        ensures none { IfNone result ((one : Topology) → topology_number one ≢ number) }
    {
        match number {
            4 => Some(Topology::TriangleList),
            5 => Some(Topology::TriangleStrip),
            _ => None,
        }
    }
}

/// A comparison of a new value (left) with a stored one (right).
#[derive(Clone, Copy, Debug, PartialEq, Eq)]
pub enum Compare {
    Never = 1,
    Less = 2,
    Equal = 3,
    LessEqual = 4,
    Greater = 5,
    NotEqual = 6,
    GreaterEqual = 7,
    Always = 8,
}

impl Compare {
    ghost use Rattle.gfxspec.specs.declared.state.Compare.{Compare};
    ghost use Rattle.gfxspec.specs.Numbers.{compare_number};

    /// Its number in Direct3D.
    pub fn number(self) -> u32
        ensures { result ≡ compare_number self }
    {
        self as u32
    }

    /// The one that has a number, if there is one.
    pub fn from_number(number: u32) -> Option<Self>
        ensures some { IfSome result (λ one. compare_number one ≡ number) }
        ensures none { IfNone result ((one : Compare) → compare_number one ≢ number) }
    {
        match number {
            1 => Some(Compare::Never),
            2 => Some(Compare::Less),
            3 => Some(Compare::Equal),
            4 => Some(Compare::LessEqual),
            5 => Some(Compare::Greater),
            6 => Some(Compare::NotEqual),
            7 => Some(Compare::GreaterEqual),
            8 => Some(Compare::Always),
            _ => None,
        }
    }
}

/// What becomes of a stored stencil value.
#[derive(Clone, Copy, Debug, PartialEq, Eq)]
pub enum StencilOp {
    Keep = 1,
    Zero = 2,
    Replace = 3,
    IncrSat = 4,
    DecrSat = 5,
    Invert = 6,
    Incr = 7,
    Decr = 8,
}

impl StencilOp {
    ghost use Rattle.gfxspec.specs.declared.state.StencilOp.{StencilOp};
    ghost use Rattle.gfxspec.specs.Numbers.{stencil_op_number};

    /// Its number in Direct3D.
    pub fn number(self) -> u32
        ensures { result ≡ stencil_op_number self }
    {
        self as u32
    }

    /// The one that has a number, if there is one.
    pub fn from_number(number: u32) -> Option<Self>
        ensures some { IfSome result (λ one. stencil_op_number one ≡ number) }
        ensures none { IfNone result ((one : StencilOp) → stencil_op_number one ≢ number) }
    {
        match number {
            1 => Some(StencilOp::Keep),
            2 => Some(StencilOp::Zero),
            3 => Some(StencilOp::Replace),
            4 => Some(StencilOp::IncrSat),
            5 => Some(StencilOp::DecrSat),
            6 => Some(StencilOp::Invert),
            7 => Some(StencilOp::Incr),
            8 => Some(StencilOp::Decr),
            _ => None,
        }
    }
}

/// An operation on the bits of a source and a stored colour.
#[derive(Clone, Copy, Debug, PartialEq, Eq)]
pub enum LogicOp {
    Clear = 0,
    Set = 1,
    Copy = 2,
    CopyInverted = 3,
    Noop = 4,
    Invert = 5,
    And = 6,
    Nand = 7,
    Or = 8,
    Nor = 9,
    Xor = 10,
    Equiv = 11,
    AndReverse = 12,
    AndInverted = 13,
    OrReverse = 14,
    OrInverted = 15,
}

impl LogicOp {
    ghost use Rattle.gfxspec.specs.declared.state.LogicOp.{LogicOp};
    ghost use Rattle.gfxspec.specs.Numbers.{logic_op_number};

    /// Its number in Direct3D.
    pub fn number(self) -> u32
        ensures { result ≡ logic_op_number self }
    {
        self as u32
    }

    /// The one that has a number, if there is one.
    pub fn from_number(number: u32) -> Option<Self>
        ensures some { IfSome result (λ one. logic_op_number one ≡ number) }
        ensures none { IfNone result ((one : LogicOp) → logic_op_number one ≢ number) }
    {
        match number {
            0 => Some(LogicOp::Clear),
            1 => Some(LogicOp::Set),
            2 => Some(LogicOp::Copy),
            3 => Some(LogicOp::CopyInverted),
            4 => Some(LogicOp::Noop),
            5 => Some(LogicOp::Invert),
            6 => Some(LogicOp::And),
            7 => Some(LogicOp::Nand),
            8 => Some(LogicOp::Or),
            9 => Some(LogicOp::Nor),
            10 => Some(LogicOp::Xor),
            11 => Some(LogicOp::Equiv),
            12 => Some(LogicOp::AndReverse),
            13 => Some(LogicOp::AndInverted),
            14 => Some(LogicOp::OrReverse),
            15 => Some(LogicOp::OrInverted),
            _ => None,
        }
    }
}
