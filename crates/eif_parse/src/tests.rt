use crate::{ParseError, parse_class};
use eif_base::{Name, Place};
use eif_lex::lex;
use eif_tree::{
    ClassTree, ExprKind, FeatureClause, FeatureDecl, FeatureKind, Instr, Literal, NameAt,
    ParentClause,
};
use std::alloc::{AllocError, Global};
use std::test::Fail;

/// Texts, and the class or the fault that they give. Of a class: its name, its formals behind `[`, each parent behind
/// `^` with how many renamings, exports, undefined, redefined and selected names it has, its creators behind `!`, and
/// each declaration behind `;` with what it is and what its body calls. Each name but a parent's comes with its line
/// and column.
const TEXTS: [(&[u8], &[u8]); 33] = [
    (
        b"class APP\ncreate make\nfeature\n  make\n    do\n    end\nend\n",
        b"app 1:7 [! make 2:8 ; make 4:3 do",
    ),
    (
        b"class A create m feature M do n N end n do end end",
        b"a 1:7 [! m 1:16 ; m 1:26 do n 1:31  n 1:33 ; n 1:39 do",
    ),
    (b"class A feature end", b"a 1:7 ["),
    (
        b"note a: b, 1; c: \"x\"\ndeferred class A [G -> B, H] obsolete \"o\"",
        b"syntax 2:42",
    ),
    (
        b"note a: b, 1; c: \"x\" deferred class\nA [G -> B, H] obsolete \"o\" end",
        b"a 2:1 [ g 2:4  h 2:12 ",
    ),
    (
        b"class A inherit\nB [C] rename a as b, c as d export {X} all; {} x, y undefine u redefine r, s select t end\nD end",
        b"a 1:7 [^b22121^d00000",
    ),
    (
        b"class A create {X} m, n create k end",
        b"a 1:7 [! m 1:20  n 1:23 ! k 1:32 ",
    ),
    (
        b"class A feature {Y}\na, b: B;\nc: INTEGER = -3\nd deferred end feature {} e: D local l: A do f end end",
        b"a 1:7 [; a 2:1  b 2:4 attribute; c 3:1 -3; d 4:1 deferred; e 4:27 do f 4:46 ",
    ),
    (
        b"class A feature\nf (x, y: A; z: B w: C): D obsolete \"q\" require else p: x do ensure then q end\ninvariant t: a note z: 'c' end",
        b"a 1:7 [; f 2:1 do",
    ),
    // Unfinished texts.
    (b"", b"syntax 1:1"),
    (b"class", b"syntax 1:6"),
    (b"class \n", b"syntax 2:1"),
    (b"class A create m feature m do end", b"syntax 1:34"),
    (b"class A create m feature m do n", b"syntax 1:32"),
    (b"class A inherit B rename x as y", b"syntax 1:32"),
    // A token that no class text has there.
    (b"class A create m feature m end end", b"syntax 1:28"),
    (
        b"class A create m feature m do n () end end",
        b"syntax 1:34",
    ),
    (b"class A create m feature end end", b"syntax 1:30"),
    (b"class A create m feature end a", b"syntax 1:30"),
    (b"class do create m feature end", b"syntax 1:7"),
    (b"class A create m feature { end inherit ->", b"syntax 1:28"),
    (b"class A [G,] end", b"syntax 1:12"),
    (b"class A create end", b"syntax 1:16"),
    (
        b"class A inherit B rename x as y rename z as w end end",
        b"syntax 1:33",
    ),
    (b"class A inherit B rename end end", b"syntax 1:26"),
    (b"class A feature f, g do end end", b"syntax 1:22"),
    (b"class A feature f: B = do", b"syntax 1:24"),
    (b"class A feature f: B = - 'c' end", b"syntax 1:26"),
    (b"class A feature f (x: B;) do end end", b"syntax 1:25"),
    // Left out, wherever a syntax fault stands.
    (b"class A\nONCE )", b"left once 2:1 "),
    (b"class ) A\n 1.5 once", b"left real 2:2 "),
    (b"class A create m feature end inherit {", b"left { 1:38 "),
    (b"class A feature x do once end end )", b"left once 1:22 "),
];

/// Class texts of many forms, and the names of their classes.
const WORKED: [(&[u8], &[u8]); 44] = [
    (
        b"class APP\ncreate make\nfeature\n  make\n    do\n    end\nend\n",
        b"app",
    ),
    (
        b"class A\nfeature\n  ok: BOOLEAN\n  put (x: detachable ANY)\n    do\n    end\nend\n",
        b"a",
    ),
    (
        b"class APP\ncreate make\nfeature\n  make\n    do\n      run (Void)\n    end\n  run (x: detachable A)\n    do\n      x.put (Void)\n    end\nend\n",
        b"app",
    ),
    (
        b"class APP\ncreate make\nfeature\n  make\n    do\n      run (Void)\n    end\n  run (x: detachable A)\n    do\n      if x /= Void then x.put (Void) end\n    end\nend\n",
        b"app",
    ),
    (
        b"class APP\ncreate make\nfeature\n  make\n    do\n      run (Void)\n    end\n  run (x: detachable A)\n    do\n      if x /= Void and x.ok then end\n    end\nend\n",
        b"app",
    ),
    (
        b"class APP\ncreate make\nfeature\n  make\n    do\n      run (Void)\n    end\n  run (x: detachable A)\n    do\n      if x /= Void and then x.ok then end\n    end\nend\n",
        b"app",
    ),
    (
        b"class APP\ncreate make\nfeature\n  make\n    do\n      run (Void)\n    end\n  run (x: detachable A)\n    do\n      if {y: A} x then y.put (Void) end\n    end\nend\n",
        b"app",
    ),
    (
        b"class APP\ncreate make\nfeature\n  make\n    do\n      run (Void)\n    end\n  run (x: detachable A)\n    do\n      if attached {A} x as y then y.put (Void) end\n    end\nend\n",
        b"app",
    ),
    (
        b"class PERSON\ncreate make\nfeature\n  name: STRING\n  make\n    do\n      name := \"p\"\n    end\nend\n",
        b"person",
    ),
    (
        b"class APP\ncreate make\nfeature\n  name: STRING\n  make\n    do\n      if True then\n        name := \"a\"\n      end\n    end\nend\n",
        b"app",
    ),
    (
        b"class APP\ncreate make\nfeature\n  name: STRING\n  make\n    local\n      other: A\n    do\n      create other\n      other.put (Current)\n      name := \"a\"\n    end\nend\n",
        b"app",
    ),
    (
        b"class APP\ncreate make\nfeature\n  name: STRING\n  make\n    local\n      other: A\n    do\n      create other\n      name := \"a\"\n      other.put (Current)\n    end\nend\n",
        b"app",
    ),
    (
        b"class APP\ninherit PERSON\ncreate make\nfeature\n  title: STRING\nend\n",
        b"app",
    ),
    (
        b"class P create make feature make do set end set do end end",
        b"p",
    ),
    (
        b"class APP inherit P redefine set end create make feature name: STRING set do print (name) name := \"a\" end end",
        b"app",
    ),
    (
        b"class APP\ninherit PERSON rename make as make_person end\ncreate make\nfeature\n  title: STRING\n  make\n    do\n      make_person\n      title := \"t\"\n    end\nend\n",
        b"app",
    ),
    (b"class Z feature f do end end", b"z"),
    (b"class B inherit Z end", b"b"),
    (b"class C inherit Z rename f as g end end", b"c"),
    (
        b"class APP\ninherit\n  B\n  C\ncreate make\nfeature\n  make\n    do\n    end\nend\n",
        b"app",
    ),
    (
        b"class APP\ninherit\n  B select f end\n  C\ncreate make\nfeature\n  make\n    do\n    end\nend\n",
        b"app",
    ),
    (
        b"class APP\ninherit\n  B select f end\ncreate make\nfeature\n  make\n    do\n    end\nend\n",
        b"app",
    ),
    (
        b"class APP\ninherit\n  PERSON select name end\n  PERSON rename name as nick end\ncreate make\nfeature\nend\n",
        b"app",
    ),
    (b"class A inherit B end", b"a"),
    (b"class B inherit A end", b"b"),
    (b"class S inherit S end", b"s"),
    (
        b"class P feature f (x: P): ANY do Result := x end end",
        b"p",
    ),
    (
        b"class APP\ninherit P redefine f end\ncreate make\nfeature\n  make\n    do\n    end\n  f (x: APP): ANY\n    do\n      Result := x\n    end\nend\n",
        b"app",
    ),
    (
        b"class APP\ninherit P redefine f end\ncreate make\nfeature\n  make\n    do\n    end\n  f (x: P): P\n    do\n      Result := x\n    end\nend\n",
        b"app",
    ),
    (
        b"class APP\ncreate make\nfeature\n  make\n    do\n    end\n  f (x: ARRAY [A]; y: ARRAY [detachable A])\n    local\n      z: ARRAY [detachable A]\n    do\n      z := y\n      z := x\n    end\nend\n",
        b"app",
    ),
    (
        b"note\n  description: \"One cell.\"\nclass LINK [G]\ncreate make\nfeature\n  item: G\n  next: detachable LINK [G]\n  make (v: G)\n    do\n      item := v\n    end\n  set_next (n: detachable LINK [G])\n    do\n      next := n\n    end\nend\n",
        b"link",
    ),
    (
        b"class APP\ncreate make\nfeature\n  head: LINK [STRING]\n  make\n    local\n      i: INTEGER\n    do\n      create head.make (\"one\")\n      from\n        i := 0\n      until\n        i >= 3\n      loop\n        push (i.out)\n        i := i + 1\n      end\n      print (total)\n    end\n  push (s: STRING)\n    local\n      l: LINK [STRING]\n    do\n      create l.make (s)\n      l.set_next (head)\n      head := l\n    end\n  total: INTEGER\n    local\n      c: detachable LINK [STRING]\n    do\n      from\n        c := head\n      until\n        c = Void\n      loop\n        if attached c as d then\n          Result := Result + d.item.count\n          c := d.next\n        else\n          c := Void\n        end\n      end\n    end\nend\n",
        b"app",
    ),
    (b"class A feature f deferred end end", b"a"),
    (
        b"class B [G] feature f (x: G) do print (x.out) end end",
        b"b",
    ),
    (
        b"class B [G -> ANY] feature f (x: G) do print (x.out) end end",
        b"b",
    ),
    (
        b"class B [G -> ANY] feature f: detachable B [detachable B [ANY]] end",
        b"b",
    ),
    (
        b"class K create {NONE} make feature make do end feature {NONE} h do end end",
        b"k",
    ),
    (
        b"class APP create make feature make local k: K do create k.make k.h end end",
        b"app",
    ),
    (b"class H inherit A rename nope as no end end", b"h"),
    (
        b"class APP create make feature name: STRING make do help name := \"a\" end help do if False then help end end end",
        b"app",
    ),
    (b"CLASS app CREATE MAKE FEATURE Make DO END END", b"app"),
    (
        b"class B inherit A A A A A A A A A A A A A A A A A A A A A A A A A A A A A A A A A A A A A A A A A A A A A A A A A A A A A A A A A A A A A A A A end",
        b"b",
    ),
    (
        b"class B inherit A A A A A A A A A A A A A A A A A A A A A A A A A A A A A A A A A A A A A A A A A A A A A A A A A A A A A A A A A A A A A A A A A end",
        b"b",
    ),
    (b"class B inherit STRING end", b"b"),
];

fn add_name(
    alloc: Global,
    shown: &mut Vec<u8>,
    name: &Name,
    place: Place,
) -> Result<(), AllocError> {
    shown.extend_from_slice(name.text())?;
    let at = format!(in alloc; " {}:{} ", place.line, place.column)?;
    shown.extend_from_slice(at.as_bytes())?;
    Ok(())
}

fn add_names(alloc: Global, shown: &mut Vec<u8>, names: &[NameAt]) -> Result<(), AllocError> {
    for name in names {
        shown.push(b' ')?;
        add_name(alloc, shown, &name.name, name.place)?;
    }
    Ok(())
}

fn add_calls(alloc: Global, shown: &mut Vec<u8>, body: &[Instr]) -> Result<(), AllocError> {
    for instr in body {
        if let Instr::Call { call } = instr {
            if let ExprKind::Unqualified { name, .. } = &call.kind {
                shown.push(b' ')?;
                add_name(alloc, shown, name, call.place)?;
            }
        }
    }
    Ok(())
}

fn add_kind(alloc: Global, shown: &mut Vec<u8>, kind: &FeatureKind) -> Result<(), AllocError> {
    match kind {
        FeatureKind::Attribute => shown.extend_from_slice(b"attribute")?,
        FeatureKind::Constant(Literal::Int(value)) => {
            let text = format!(in alloc; "{}", value)?;
            shown.extend_from_slice(text.as_bytes())?;
        }
        FeatureKind::Constant(_) => shown.extend_from_slice(b"constant")?,
        FeatureKind::DeferredBody => shown.extend_from_slice(b"deferred")?,
        FeatureKind::Routine { body, .. } => {
            shown.extend_from_slice(b"do")?;
            add_calls(alloc, shown, body)?;
        }
    }
    Ok(())
}

fn add_decls(alloc: Global, shown: &mut Vec<u8>, decls: &[FeatureDecl]) -> Result<(), AllocError> {
    for decl in decls {
        shown.push(b';')?;
        add_names(alloc, shown, &decl.names)?;
        add_kind(alloc, shown, &decl.kind)?;
    }
    Ok(())
}

fn add_features(
    alloc: Global,
    shown: &mut Vec<u8>,
    features: &[FeatureClause],
) -> Result<(), AllocError> {
    for part in features {
        add_decls(alloc, shown, &part.decls)?;
    }
    Ok(())
}

fn add_parents(
    alloc: Global,
    shown: &mut Vec<u8>,
    parents: &[ParentClause],
) -> Result<(), AllocError> {
    for parent in parents {
        shown.push(b'^')?;
        shown.extend_from_slice(parent.parent.name.text())?;
        let counts = format!(in alloc;
            "{}{}{}{}{}",
            parent.renames.len(),
            parent.exports.len(),
            parent.undefines.len(),
            parent.redefines.len(),
            parent.selects.len()
        )?;
        shown.extend_from_slice(counts.as_bytes())?;
    }
    Ok(())
}

fn shown_class(alloc: Global, class: &ClassTree) -> Result<Vec<u8>, AllocError> {
    let mut shown = Vec::new(alloc);
    add_name(alloc, &mut shown, &class.name, class.place)?;
    shown.push(b'[')?;
    for formal in &class.formals {
        shown.push(b' ')?;
        add_name(alloc, &mut shown, &formal.name, formal.place)?;
    }
    add_parents(alloc, &mut shown, &class.parents)?;
    for part in &class.creators {
        shown.push(b'!')?;
        add_names(alloc, &mut shown, &part.names)?;
    }
    add_features(alloc, &mut shown, &class.features)?;
    Ok(shown)
}

fn shown_error(alloc: Global, error: ParseError) -> Result<Vec<u8>, AllocError> {
    match error {
        ParseError::Left(place, name) => {
            let mut shown = Vec::from_slice(alloc, b"left ")?;
            add_name(alloc, &mut shown, &name, place)?;
            Ok(shown)
        }
        ParseError::Syntax(place) => Ok(format!(in alloc;
            "syntax {}:{}",
            place.line, place.column
        )?.into_bytes()),
        ParseError::Memory => Err(AllocError),
    }
}

/// The class of a text, or its fault. No text here is stuck.
fn parsed(alloc: Global, text: &[u8]) -> Result<ClassTree, ParseError> {
    if 1048576 < text.len() {
        return Err(ParseError::Memory);
    }
    match lex(alloc, 3, text) {
        Ok(tokens) => parse_class(alloc, &tokens),
        Err(_) => Err(ParseError::Memory),
    }
}

fn shown(alloc: Global, text: &[u8]) -> Result<Vec<u8>, AllocError> {
    match parsed(alloc, text) {
        Ok(class) => shown_class(alloc, &class),
        Err(error) => shown_error(alloc, error),
    }
}

/// The number of the first row that is wrong.
fn wrong_text(alloc: Global, rows: &[(&[u8], &[u8])]) -> Result<Option<usize>, AllocError> {
    for i in 0..rows.len() {
        if shown(alloc, rows[i].0)?.as_slice() != rows[i].1 {
            return Ok(Some(i));
        }
    }
    Ok(None)
}

#[test]
fn texts_are_classes_or_faults(rt: HostRuntime) -> Result<(), Fail> {
    let wrong = wrong_text(rt.alloc(), &TEXTS)?;
    assert_eq!(rt; wrong, None);
    Ok(())
}

/// Whether the text is that of a class with that name.
fn is_class(alloc: Global, text: &[u8], name: &[u8]) -> bool {
    match parsed(alloc, text) {
        Ok(class) => class.name.text() == name,
        Err(_) => false,
    }
}

/// The number of the first text that is not that of the class with its name.
fn wrong_class(alloc: Global, rows: &[(&[u8], &[u8])]) -> Option<usize> {
    for i in 0..rows.len() {
        if !is_class(alloc, rows[i].0, rows[i].1) {
            return Some(i);
        }
    }
    None
}

#[test]
fn worked_texts_are_classes(rt: HostRuntime) {
    assert_eq!(rt; wrong_class(rt.alloc(), &WORKED), None);
}
