//! Rows of sources and of objects, with what linking and running them gives.

use crate::same::same_bytes;
use farm_types::{Bytes, Words};
use sample_compiler::object_of;
use sample_lang::{Parsed, parse};
use sample_linker::{LinkFault, Linked, RunFault, Value, link, run};
use std::alloc::{AllocError, Global};
use std::process::Abort;
use std::test::Fail;

fn parsed_object(alloc: Global, parsed: &Parsed) -> Result<Bytes, AllocError> {
    match parsed {
        Parsed::Program(items) => object_of(alloc, items.as_slice()),
        Parsed::Fault { .. } => Bytes::from_slice(alloc, b"no source"),
        Parsed::Memory => Bytes::from_slice(alloc, b"no memory"),
    }
}

// The object of a source.
fn object_text(alloc: Global, source: &[u8]) -> Result<Bytes, AllocError> {
    let source = Bytes::from_slice(alloc, source)?;
    parsed_object(alloc, &parse(alloc, &source))
}

// A text, and a number after it.
fn put_numbered(
    alloc: Global,
    all: &mut Bytes,
    text: &[u8],
    number: u64,
) -> Result<(), AllocError> {
    all.try_extend(text)?;
    let digits = format!(in alloc; "{number}")?;
    all.try_extend(digits.as_bytes())
}

// A text, and a name after it.
fn put_named(all: &mut Bytes, text: &[u8], name: &Bytes) -> Result<(), AllocError> {
    all.try_extend(text)?;
    all.try_extend(name.as_slice())
}

fn put_circle(all: &mut Bytes, names: &Words) -> Result<(), AllocError> {
    all.try_extend(b"circular")?;
    for name in names.as_slice() {
        put_named(all, b" ", name)?;
    }
    Ok(())
}

fn put_fault(alloc: Global, all: &mut Bytes, fault: &LinkFault) -> Result<(), AllocError> {
    match fault {
        LinkFault::BadObject { file, line } => {
            put_numbered(alloc, all, b"bad object ", *file)?;
            put_numbered(alloc, all, b" line ", *line)
        }
        LinkFault::Doubled { name } => put_named(all, b"doubled ", name),
        LinkFault::Unresolved { name } => put_named(all, b"unresolved ", name),
        LinkFault::Circular { names } => put_circle(all, names),
    }
}

fn put_value(alloc: Global, all: &mut Bytes, value: Value) -> Result<(), AllocError> {
    match value {
        Value::Number(number) => put_numbered(alloc, all, b"", number),
        Value::Fault(RunFault::NoMain) => all.try_extend(b"no main"),
        Value::Fault(RunFault::BadImage { line }) => put_numbered(alloc, all, b"bad image ", line),
        Value::Memory => all.try_extend(b"no memory"),
    }
}

fn put_linked(alloc: Global, all: &mut Bytes, linked: &Linked) -> Result<(), AllocError> {
    match linked {
        Linked::Image(image) => {
            all.try_extend(image.as_slice())?;
            put_value(alloc, all, run(alloc, image))
        }
        Linked::Fault(fault) => put_fault(alloc, all, fault),
        Linked::Memory => all.try_extend(b"no memory"),
    }
}

// What linking gives, and a value of its image.
fn link_text(alloc: Global, objects: &Words) -> Result<Bytes, AllocError> {
    let mut all = Bytes::new(alloc);
    put_linked(alloc, &mut all, &link(alloc, objects))?;
    Ok(all)
}

fn value_text(alloc: Global, image: &[u8]) -> Result<Bytes, AllocError> {
    let image = Bytes::from_slice(alloc, image)?;
    let mut all = Bytes::new(alloc);
    put_value(alloc, &mut all, run(alloc, &image))?;
    Ok(all)
}

// Several texts, and what linking gives.
type Linking = (&'static [&'static [u8]], &'static [u8]);

// Sources, and what linking their objects gives, with the value of the image after it.
const SOURCES: &[Linking] = &[
    (
        &[b"extern int b; int main = b*(2+b);\n", b"int b = 3;\n"],
        b"SCP1\ndef b 3\ndef main @b 2 @b + *\n15",
    ),
    (&[b"extern int b; int main = b*(2+b);\n"], b"unresolved b"),
    (
        &[b"extern int b; int a = b;\n", b"extern int a; int b = a;\n"],
        b"circular a b",
    ),
    (
        &[b"int main = 0 - 1;\n"],
        b"SCP1\ndef main 0 1 -\n18446744073709551615",
    ),
    (&[b""], b"SCP1\nno main"),
    (
        &[b"int a = 1; int b = 2; int a = 3;", b"int c = 1;"],
        b"bad object 1 line 1",
    ),
    (
        &[
            b"int b = 1; int a = 2;",
            b"int c = 1; int a = 4; int b = 5;",
        ],
        b"doubled a",
    ),
    (
        &[b"extern int x; extern int y;", b"int c = 1; int x = 3;"],
        b"unresolved y",
    ),
    (
        &[
            b"extern int c; int a = c; int b = 1; int d = a;",
            b"extern int b; int c = b; int main = 5 - 2 - 1;",
        ],
        b"SCP1\ndef b 1\ndef c @b\ndef a @c\ndef d @a\ndef main 5 2 - 1 -\n2",
    ),
    (
        &[
            b"extern int c; int z = 1; int a = z + c;",
            b"extern int d; int c = d;",
            b"extern int a; int d = a * a; int main = d;",
        ],
        b"circular a c d",
    ),
    // A name that is needed twice.
    (
        &[
            b"extern int b; int a = b;",
            b"int b = 7;",
            b"extern int b; extern int a; int main = a * b;",
        ],
        b"SCP1\ndef b 7\ndef a @b\ndef main @a @b *\n49",
    ),
    // Twelve sources without `main`, as those of the workload.
    (
        &[
            b"int j1 = 775 * 7 + 1;\n",
            b"int j2 = 52 * 7 + 2;\n",
            b"int j3 = 361 * 7 + 3;\n",
            b"int j4 = 344 * 7 + 4;\n",
            b"int j5 = 13 * 7 + 5;\n",
            b"int j6 = 950 * 7 + 6;\n",
            b"int j7 = 827 * 7 + 7;\n",
            b"int j8 = 541 * 7 + 8;\n",
            b"int j9 = 131 * 7 + 9;\n",
            b"int j10 = 772 * 7 + 10;\n",
            b"int j11 = 822 * 7 + 11;\n",
            b"int j12 = 607 * 7 + 12;\n",
        ],
        b"SCP1\ndef j1 775 7 * 1 +\ndef j2 52 7 * 2 +\ndef j3 361 7 * 3 +\ndef j4 344 7 * 4 +\ndef j5 13 7 * 5 +\ndef j6 950 7 * 6 +\ndef j7 827 7 * 7 +\ndef j8 541 7 * 8 +\ndef j9 131 7 * 9 +\ndef j10 772 7 * 10 +\ndef j11 822 7 * 11 +\ndef j12 607 7 * 12 +\nno main",
    ),
];

// Objects, and what linking them gives.
const OBJECTS: &[Linking] = &[
    (&[b""], b"bad object 1 line 1"),
    (&[b"SCO1"], b"bad object 1 line 1"),
    (&[b"SCO1\n", b"SCP1\n"], b"bad object 2 line 1"),
    (&[b"SCO1\n"], b"SCP1\nno main"),
    (&[b"SCO1\ndef a 1"], b"bad object 1 line 2"),
    (&[b"SCO1\ndef a 1\n\n"], b"bad object 1 line 3"),
    (&[b"SCO1\ndef a 01\n"], b"bad object 1 line 2"),
    (&[b"SCO1\ndef a 0\n"], b"SCP1\ndef a 0\nno main"),
    (
        &[b"SCO1\ndef a 18446744073709551615\n"],
        b"SCP1\ndef a 18446744073709551615\nno main",
    ),
    (
        &[b"SCO1\ndef a 18446744073709551616\n"],
        b"bad object 1 line 2",
    ),
    (&[b"SCO1\ndef a  1\n"], b"bad object 1 line 2"),
    (&[b"SCO1\ndef a 1 \n"], b"bad object 1 line 2"),
    (&[b"SCO1\ndef a\n"], b"bad object 1 line 2"),
    (&[b"SCO1\ndef a \n"], b"bad object 1 line 2"),
    (&[b"SCO1\ndef a 1 2\n"], b"bad object 1 line 2"),
    (&[b"SCO1\ndef a 1 +\n"], b"bad object 1 line 2"),
    (&[b"SCO1\ndef a @b\ndef b 1\n"], b"bad object 1 line 2"),
    (&[b"SCO1\ndef a @a\n"], b"bad object 1 line 2"),
    (&[b"SCO1\nneed int\n"], b"bad object 1 line 2"),
    (&[b"SCO1\nneed extern\n"], b"bad object 1 line 2"),
    (&[b"SCO1\nneed 1a\n"], b"bad object 1 line 2"),
    (&[b"SCO1\nneed a\nneed a\n"], b"bad object 1 line 3"),
    (&[b"SCO1\nneed a\ndef a 1\n"], b"bad object 1 line 3"),
    (
        &[b"SCO1\ndef a 1 2 3 + *\n"],
        b"SCP1\ndef a 1 2 3 + *\nno main",
    ),
];

// An image, and its value.
type Image = (&'static [u8], &'static [u8]);

const IMAGES: &[Image] = &[
    (b"", b"bad image 1"),
    (b"SCO1\n", b"bad image 1"),
    (b"SCP1\n", b"no main"),
    (b"SCP1\nneed a\n", b"bad image 2"),
    (b"SCP1\ndef main @a\ndef a 1\n", b"bad image 2"),
    (b"SCP1\ndef a 7\ndef main @a @a *\n", b"49"),
    (b"SCP1\ndef main 1\ndef main 2\n", b"bad image 3"),
    (
        b"SCP1\ndef main 18446744073709551615 2 *\n",
        b"18446744073709551614",
    ),
];

fn compiled(alloc: Global, sources: &[&[u8]]) -> Result<Words, AllocError> {
    let mut objects = Words::new(alloc);
    for source in sources {
        objects.try_push(object_text(alloc, source)?)?;
    }
    Ok(objects)
}

fn objects_of(alloc: Global, texts: &[&[u8]]) -> Result<Words, AllocError> {
    let mut objects = Words::new(alloc);
    for text in texts {
        objects.try_push(Bytes::from_slice(alloc, text)?)?;
    }
    Ok(objects)
}

fn expect_link<R: Abort>(
    rt: &R,
    alloc: Global,
    objects: &Words,
    row: &Linking,
) -> Result<(), Fail> {
    let text = link_text(alloc, objects)?;
    same_bytes(rt, text.as_slice(), row.1, &row.0);
    Ok(())
}

fn expect_sources<R: Abort>(rt: &R, alloc: Global, rows: &[Linking]) -> Result<(), Fail> {
    for row in rows {
        expect_link(rt, alloc, &compiled(alloc, row.0)?, row)?;
    }
    Ok(())
}

#[test]
fn sources_link(rt: HostRuntime) -> Result<(), Fail> {
    expect_sources(&rt, rt.alloc(), SOURCES)
}

fn expect_objects<R: Abort>(rt: &R, alloc: Global, rows: &[Linking]) -> Result<(), Fail> {
    for row in rows {
        expect_link(rt, alloc, &objects_of(alloc, row.0)?, row)?;
    }
    Ok(())
}

#[test]
fn objects_link(rt: HostRuntime) -> Result<(), Fail> {
    expect_objects(&rt, rt.alloc(), OBJECTS)
}

fn expect_values<R: Abort>(rt: &R, alloc: Global, rows: &[Image]) -> Result<(), Fail> {
    for (image, value) in rows {
        let text = value_text(alloc, image)?;
        same_bytes(rt, text.as_slice(), value, image);
    }
    Ok(())
}

#[test]
fn images_run(rt: HostRuntime) -> Result<(), Fail> {
    expect_values(&rt, rt.alloc(), IMAGES)
}
