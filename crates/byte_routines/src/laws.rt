//! Laws of the routines, each the contract of a function that does nothing.

ghost use Rattle.byte_routines.specs.Calls.{ProductsAreMade, QuotientsAreMade};

/// A call of the routine of products comes back with the product, and one of the routine of quotients with the quotient, of any two words. Each begins the
/// routine's primitives as often as they say for one call, and changes no cells but the routines' own.
pub fn calls_come_back()
    ensures products { ProductsAreMade }
    ensures quotients { QuotientsAreMade }
{}
