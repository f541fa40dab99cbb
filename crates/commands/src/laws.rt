//! How lines are written and read, each law on the contract of a function with no code.
//! They speak of the definitions alone, which the readers of orders and headings meet.
ghost use Rattle.commands.specs.Orders.{OrdersPass, HeadingsPass, OneOrder, OneHeading};

/// Every order and every heading whose numbers have at most nine digits passes its table when it is
/// written out.
pub fn written_lines_pass()
    ensures orders { OrdersPass }
    ensures headings { HeadingsPass }
{}

/// A line is one order at most, and one heading at most: its bytes alone say what it orders.
pub fn lines_read_once()
    ensures orders { OneOrder }
    ensures headings { OneHeading }
{}
