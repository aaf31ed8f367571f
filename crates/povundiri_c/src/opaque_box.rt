// A `Box<Contents>` behind a pointer whose type does not name the contents, since no type that C holds may lead to a
// value that threads share. Or nothing.
ghost use Rattle.std.specs.Prelude.{◌≡◌, Option, Some};
ghost use Rattle.povundiri_c.specs.declared.contents.Contents.{Contents};
ghost use Rattle.povundiri_c.specs.OpaqueBoxes.{held_coded, opaque_owns};

mod box_parts;

use crate::contents::Contents;
use box_parts::BoxParts;
use std::alloc::Global;
use std::marker::Model;

#[repr(C)]
#[derive(Drop)]
pub struct OpaqueBox {
    ptr: *mut u8,
    alloc: Global,
    pub ghost held: { Option Contents } by { held_coded },
}

impl Model for OpaqueBox {
    ghost also_owns = { λ s. opaque_owns s.alloc s.ptr s.held };
}

unsafe impl Send for OpaqueBox {}

impl OpaqueBox {
    ghost use Rattle.std.specs.Borrow.{sem};
    ghost use Rattle.povundiri_c.specs.Lending.{LendsContents};

    /// Hides a box behind a pointer without its type; it holds the value.
    pub fn of(boxed: Box<Contents>) -> OpaqueBox
        ensures { result.held ≡ Some boxed.value }
    {
        OpaqueBox::of_parts(BoxParts::of(boxed))
    }

    fn of_parts(parts: BoxParts<Contents, Global>) -> OpaqueBox
        ensures { result.held ≡ Some parts.value }
    {
        let BoxParts { ptr, alloc } = parts;
        OpaqueBox {
            ptr: ptr as *mut u8,
            alloc,
        }
    }

    fn into_parts(self) -> BoxParts<Contents, Global>
        requires { (x : Contents) × (self.held ≡ Some x) }
        ensures { self.held ≡ Some result.value }
    {
        let OpaqueBox { ptr, alloc } = self;
        BoxParts {
            ptr: ptr as *mut Contents,
            alloc,
        }
    }

    /// Returns the box that was hidden, with the value that it holds.
    pub fn open(self) -> Box<Contents>
        requires { (x : Contents) × (self.held ≡ Some x) }
        ensures { self.held ≡ Some result.value }
    {
        self.into_parts().into_box()
    }

    /// Returns a borrow of the value that it holds [value]. When the borrow ends, it holds what that has become
    /// [writes_back].
    pub fn get_mut(&mut self) -> &mut Contents
        requires { (x : Contents) × (self.old.held ≡ Some x) }
        ensures* writes_back { sem 𝓛 (LendsContents self.entry result) }
        ensures value { self.old.held ≡ Some result.now }
    {
        unsafe { &mut *(self.ptr as *mut Contents) }
    }
}
