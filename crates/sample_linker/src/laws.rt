//! Laws of objects, images and numbers.

ghost use Rattle.std.specs.Prelude.{ℕ, ◌≡◌, List, [], true, Ok};
ghost use Rattle.sample_lang.specs.declared.program.Item.{Item};
ghost use Rattle.sample_lang.specs.Names.{is_named, AreDeclared};
ghost use Rattle.sample_lang.specs.Sources.{SourceOf};
ghost use Rattle.sample_lang.specs.Values.{Numbers, ItemsHold};
ghost use Rattle.sample_linker.specs.declared.kind.Kind.{Kind};
ghost use Rattle.sample_linker.specs.declared.kind.Kind.TheVariants as kinds;
ghost use Rattle.sample_linker.specs.Files.{file_items};
ghost use Rattle.sample_linker.specs.Links.{definitions, image_of};
ghost use Rattle.sample_compiler.specs.Objects.{items_text};
ghost use Rattle.sample_linker.specs.Orders.{IsImageOrder};
ghost use Rattle.sample_linker.specs.Right.{AreRightItems, Says};
ghost use Rattle.sample_linker.specs.Sources.{LinksSources};

/// A text that says items is read as these.
pub fn right_texts_read()
    ensures { (kind : Kind) (text : List ℕ) (items : List Item) → Says kind text items → file_items kind text ≡ Ok items }
{}

/// The object of a source is right, and says the source's items.
pub fn objects_of_sources()
    ensures { (text : List ℕ) (items : List Item) → SourceOf text items → Says kinds.Object (items_text items) items }
{}

/// The image of the definitions of right objects, in their order, is right, and says them in that order.
pub fn images_of_orders()
    ensures { (items order : List Item) → AreRightItems kinds.Object items → IsImageOrder (definitions items) [] order
        → Says kinds.Image (image_of order) order }
{}

/// The definitions of a right image have numbers, and these are the same in each assignment for which each name means the value
/// of its code.
pub fn one_assignment()
    ensures some { (text : List ℕ) (items : List Item) → Says kinds.Image text items → (numbers : Numbers) × ItemsHold numbers items }
    ensures one { (text : List ℕ) (items : List Item) (a b : Numbers) (name : List ℕ) → Says kinds.Image text items
        → ItemsHold a items → ItemsHold b items → is_named items name ≡ true → a name ≡ b name }
{}

/// Linking the objects of sources gives an image exactly if no name is defined twice, each needed name is defined, and no
/// definition uses itself through others. Then an assignment fits the sources, all that fit have the same numbers for the defined
/// names, and running the image gives that of `main`, or says that it isn't defined.
pub fn linked_sources()
    ensures { LinksSources }
{}
