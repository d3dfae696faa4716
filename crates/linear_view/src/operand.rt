ghost use Rattle.std.specs.Prelude.{◌≡◌};
ghost use Rattle.linear_view.specs.Sides.{other_side, co_operand, place_of};

/// One of the two sides of a product.
#[derive(Debug, Clone, Copy, PartialEq, Eq)]
pub enum Side {
    Left,
    Right,
}

/// One of the two operands of a product, by the product's number and its side.
#[derive(Debug, Clone, Copy, PartialEq, Eq)]
pub struct Operand {
    pub product: u32,
    pub side: Side,
}

impl Side {
    /// The other side.
    pub fn other(self) -> Side
        ensures { result ≡ other_side self }
    {
        match self {
            Side::Left => Side::Right,
            Side::Right => Side::Left,
        }
    }
}

impl Operand {
    /// The co-operand: the operand of the same product on the other side.
    pub fn other(self) -> Operand
        ensures { result ≡ co_operand self }
    {
        Operand {
            product: self.product,
            side: self.side.other(),
        }
    }

    /// The place of the operand among all, by product, left before right.
    pub fn place(self) -> usize
        ensures { result ≡ place_of self }
    {
        let first = 2 * self.product as usize;
        match self.side {
            Side::Left => first,
            Side::Right => first + 1,
        }
    }
}
