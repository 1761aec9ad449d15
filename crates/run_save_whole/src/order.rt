//! How siblings may follow one another.

ghost use Rattle.std.specs.Prelude.{◌≡◌};
ghost use Rattle.run_save_whole.specs.Tallies.{raised, is_under, with_child, is_low};

use task_tree::tasks::Role;

/// Where a child may stand that comes now.
#[derive(Clone, Copy)]
pub struct Floor {
    /// Whether it may not stand in the background, since an arm stands before it.
    pub closed: bool,
    /// The least depth at which it may stand in the background.
    pub depth: u32,
}

/// Before the first child.
pub const OPEN_FLOOR: Floor = Floor {
    closed: false,
    depth: 0,
};

fn raised(floor: Floor, role: Role) -> Floor
    ensures { result ≡ raised floor role }
{
    match role {
        Role::Root => floor,
        Role::Arm(_) => Floor {
            closed: true,
            depth: floor.depth,
        },
        Role::Behind(depth) => Floor {
            closed: floor.closed,
            depth: floor.depth.max(depth),
        },
    }
}

fn is_under(floor: Floor, depth: u32) -> bool
    ensures { result ≡ is_under floor depth }
{
    floor.closed || depth < floor.depth
}

/// Whether a task of this parent and role may not stand behind the children before it.
pub fn is_low(floors: &[Floor], parent: Option<u32>, role: Role) -> bool
    ensures { result ≡ is_low floors.now parent role }
{
    match (parent, role) {
        (Some(parent), Role::Behind(depth)) => match floors.get(parent as usize) {
            Some(floor) => is_under(*floor, depth),
            None => false,
        },
        _ => false,
    }
}

/// A child more.
pub fn add_child(floors: &mut [Floor], parent: Option<u32>, role: Role)
    ensures { floors.new ≡ with_child floors.old parent role }
{
    if let Some(parent) = parent {
        let parent = parent as usize;
        if parent < floors.len() {
            floors[parent] = raised(floors[parent], role);
        }
    }
}
