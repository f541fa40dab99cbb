// The figures of a group that its line of a data sheet gives: the order, the most halves of an element, the changes per
// erase that are promised, and the fewest cells to a record for which they are.
ghost use Rattle.std.specs.Prelude.{◌≡◌, ◌-◌};
ghost use Rattle.group.specs.Group.{halves, most_halves};
ghost use Rattle.data_sheet.specs.Figures.{Gives};

use group::interface::Group;

#[derive(Clone, Copy)]
pub struct Figures {
    // v, the number of elements
    pub order: u32,
    // e, the most halves of an element other than 0
    pub most_halves: u32,
    // h, the changes per erase that are promised
    pub changes: u32,
    // the fewest cells to a record for which h is promised
    pub cells: u32,
}

impl Figures {
    // None for an unusable group.
    pub fn of<G: Group>(group: &G) -> Option<Figures>
        ensures { Gives (G.Group.meaning group.now) result }
    {
        if !group.is_usable() {
            return None;
        }
        let order = group.order();
        let most_halves = most_halves(group);
        Some(Figures {
            order,
            most_halves,
            changes: (order + 1 - most_halves) / 4,
            // one for each element other than 0
            cells: order - 1,
        })
    }
}

// The most halves of an element other than 0.
fn most_halves<G: Group>(group: &G) -> u32
    ensures { result ≡ most_halves (G.Group.meaning group.now) ((G.Group.meaning group.now).order - 1) }
{
    (1..group.order())
        .map(|d| halves(group, d))
        .max()
        .unwrap_or(0)
}

// How many halves d has, which are the elements a with a + a = d. That the cast loses nothing is proved.
fn halves<G: Group>(group: &G, d: u32) -> u32
    ensures { result ≡ halves (G.Group.meaning group.now) d (G.Group.meaning group.now).order }
{
    (0..group.order())
        .filter(|a| group.sum(*a, *a) == d)
        .count() as u32
}
