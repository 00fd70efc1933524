//! Transforms of tables, and classes by their definition: the least of all 768 images.
ghost use Rattle.std.specs.Prelude.{◌≡◌, ◌↔◌, ◌+◌, ◌*◌, ◌%◌, ◌<◌, ◌≤◌, [], length, map, bit_xor, Contains, IsNone, IfOk, IfSome};
ghost use Rattle.std.specs.List.{range_with_len};
ghost use Rattle.std.specs.Option.{option_map, option_map_or};
ghost use Rattle.reference.specs.Tables.{bit};
ghost use Rattle.reference.specs.Classes.{image, in_order, inverted, orders, transform_at, IsFirstLeast, class_in, has, owned_at};

use crate::tables::Variable::{V0, V1, V2, V3};
use crate::tables::{Variable, setting_of, table_of, value_at};
use std::alloc::{AllocError, Global};

/// An order of the variables.
pub type Order = [Variable; 4];

/// The image of a table at a setting is the table at the values of the variables in this order, inverted where the mask is true, and
/// then inverted if the output is. The mask is a setting, so it is a number like the others.
#[derive(Clone, Copy, PartialEq, Eq)]
pub struct Transform {
    pub output: bool,
    pub order: Order,
    pub mask: u16,
}

// The setting of the variables' values, in this order.
fn read_in(order: Order, x: u16) -> u16
    ensures { result ≡ in_order order x }
{
    setting_of(order.map(|v| v.is_set(x)))
}

impl Transform {
    /// The image of a table.
    pub fn image_of(self, f: u16) -> u16
        ensures { result ≡ image self f }
    {
        table_of(
            |x: u16| -> bool
                ensures { result ≡ inverted self.output (bit f (bit_xor (in_order self.order x) self.mask % 16)) }
            {
                let z = read_in(self.order, x);
                value_at(f, z ^ self.mask) != self.output
            },
        )
    }
}

// The 24 orders of the variables, lexicographically.
const ORDERS: [Order; 24] = [
    [V0, V1, V2, V3],
    [V0, V1, V3, V2],
    [V0, V2, V1, V3],
    [V0, V2, V3, V1],
    [V0, V3, V1, V2],
    [V0, V3, V2, V1],
    [V1, V0, V2, V3],
    [V1, V0, V3, V2],
    [V1, V2, V0, V3],
    [V1, V2, V3, V0],
    [V1, V3, V0, V2],
    [V1, V3, V2, V0],
    [V2, V0, V1, V3],
    [V2, V0, V3, V1],
    [V2, V1, V0, V3],
    [V2, V1, V3, V0],
    [V2, V3, V0, V1],
    [V2, V3, V1, V0],
    [V3, V0, V1, V2],
    [V3, V0, V2, V1],
    [V3, V1, V0, V2],
    [V3, V1, V2, V0],
    [V3, V2, V0, V1],
    [V3, V2, V1, V0],
];

/// The 24 orders, lexicographically.
#[tactic(auto, using(crate::proofs::Bits::orders_are))]
pub fn list_orders(heap: Global) -> Result<Vec<Order>, AllocError>
    ensures { IfOk result (λ orders_listed. orders_listed.items ≡ orders) }
{
    ORDERS.into_iter().collect(heap)
}

// Transform number `n`.
fn nth_transform(n: u16) -> Transform
    ensures { result ≡ transform_at n }
{
    Transform {
        output: n >= 384,
        order: ORDERS[usize::from(n / 16 % 24)],
        mask: n % 16,
    }
}

/// The 768 transforms, by output, then order, then mask.
pub fn list_transforms(heap: Global) -> Result<Vec<Transform>, AllocError>
    ensures { IfOk result (λ transforms. transforms.items ≡ map transform_at (range_with_len 0 768)) }
{
    (0..768).map(nth_transform).collect(heap)
}

// The 768 transforms are 48 blocks of sixteen, which differ in the mask.
const BLOCKS: u16 = 48;

/// The least image of a table, and the first transform that gives it.
#[derive(Clone, Copy, PartialEq, Eq)]
pub struct Class {
    pub representative: u16,
    pub transform: Transform,
}

impl Class {
    /// The class of a table: the least of all 768 images, by the first transform that gives it.
    pub fn of(f: u16) -> Class
        ensures { IsFirstLeast f 768 result }
    {
        let first = nth_transform(0);
        let mut least = Class {
            representative: first.image_of(f),
            transform: first,
        };
        for block in 0..BLOCKS {
            least = least.after_masks(f, block);
        }
        least
    }

    // After the sixteen images of a block. The order stays, so what is read in it is not worked out for each of them.
    fn after_masks(self, f: u16, block: u16) -> Class
        requires { (block < 48) × IsFirstLeast f (block * 16) self }
        ensures { IsFirstLeast f (block * 16 + 16) result }
    {
        let first = nth_transform(block * 16);
        let mut least = self;
        for mask in 0..16u16 {
            let transform = Transform { mask, ..first };
            least = least.or_less(Class {
                representative: transform.image_of(f),
                transform,
            });
        }
        least
    }

    // The other, where its image is less.
    fn or_less(self, other: Class) -> Class
        ensures less { other.representative < self.representative → result ≡ other }
        ensures kept { self.representative ≤ other.representative → result ≡ self }
    {
        if other.representative < self.representative {
            other
        } else {
            self
        }
    }

    /// The class of a table by the images under these transforms.
    pub fn among(transforms: &[Transform], f: u16) -> Option<Class>
        ensures none { IsNone result ↔ (transforms.now ≡ []) }
        ensures image { IfSome result (λ class. Contains transforms.now class.transform × class.representative ≡ image class.transform f) }
        ensures least { IfSome result (λ class. (t : _) → Contains transforms.now t → class.representative ≤ image t f) }
    {
        transforms
            .iter()
            .map(|transform| Class {
                representative: transform.image_of(f),
                transform: *transform,
            })
            .min_by_key(|class| class.representative)
    }
}

/// The classes of all tables.
#[derive(Drop)]
pub struct Atlas {
    classes: Vec<Class>,
}

impl Atlas {
    /// Goes through the images of every table.
    pub fn new(heap: Global) -> Result<Atlas, AllocError>
        ensures { IfOk result (λ atlas. length atlas.classes.items ≡ 65536) }
    {
        let classes = (0..=u16::MAX).map(Class::of).collect(heap)?;
        Ok(Atlas { classes })
    }

    /// The class of a table.
    pub fn class(&self, f: u16) -> Option<Class>
        ensures { result ≡ class_in self.now f }
    {
        self.classes.get(f as usize).copied()
    }

    /// The number of a table's class; the table itself where there is none.
    pub fn number(&self, f: u16) -> u16
        ensures { result ≡ option_map_or (λ class. class.representative) (class_in self.now f) f }
    {
        self.class(f).map_or(f, |class| class.representative)
    }

    /// Whether a table's class is owned.
    pub fn owns(&self, own: Owned, f: u16) -> Option<bool>
        ensures { result ≡ option_map (λ class. has own class.representative) (class_in self.now f) }
    {
        self.class(f).map(|class| own.has(class.representative))
    }
}

/// What is owned besides class 15.
#[derive(Clone, Copy)]
pub struct Owned {
    pub xor: bool,
    pub majority: bool,
    pub every: bool,
}

impl Owned {
    // Number `n` of the eight.
    fn nth(n: u8) -> Owned
        ensures { result ≡ owned_at n }
    {
        Owned {
            xor: n % 2 == 1,
            majority: n / 2 % 2 == 1,
            every: n / 4 % 2 == 1,
        }
    }

    /// The eight: every class outermost, then the majority, then the exclusive-or.
    pub fn all() -> [Owned; 8]
        ensures { result ≡ map owned_at (range_with_len 0 8) }
    {
        let at = Owned::nth;
        [at(0), at(1), at(2), at(3), at(4), at(5), at(6), at(7)]
    }

    /// Whether a class is owned.
    pub fn has(self, class: u16) -> bool
        ensures { result ≡ has self class }
    {
        match class {
            15 => true,
            4080 => self.xor || self.every,
            831 => self.majority || self.every,
            _ => self.every,
        }
    }
}

#[cfg(test)]
mod tests {
    use super::*;
    use std::test::Fail;

    #[test]
    fn lists_orders(rt: HostRuntime) -> Result<(), Fail> {
        let orders = list_orders(rt.alloc())?;
        assert_eq!(rt; orders.len(), 24);
        assert!(rt; orders.first() == Some(&[V0, V1, V2, V3]));
        assert!(rt; orders.last() == Some(&[V3, V2, V1, V0]));
        Ok(())
    }

    #[test]
    fn lists_transforms(rt: HostRuntime) -> Result<(), Fail> {
        let transforms = list_transforms(rt.alloc())?;
        assert_eq!(rt; transforms.len(), 768);
        let plain = Transform {
            output: false,
            order: [V0, V1, V2, V3],
            mask: 0,
        };
        let next = Transform {
            order: [V0, V1, V3, V2],
            mask: 1,
            ..plain
        };
        let last = Transform {
            output: true,
            order: [V3, V2, V1, V0],
            mask: 15,
        };
        assert!(rt; transforms.first() == Some(&plain));
        assert!(rt; transforms.get(17) == Some(&next));
        assert!(rt; transforms.last() == Some(&last));
        Ok(())
    }
}
