use crate::{
    Bytes, Code, Fault, FaultList, FileTexts, Gate, MemSink, MemTexts, NO_FILE, Name, NameSet,
    Names, OpenGate, OutSink, Place, ReadEnd, ReadFail, Sink, SureSink, SureTexts, Texts,
    WriteFail, base_crosses,
};
use std::fs;
use std::io::{self, Write};
use std::test::Fail;

const CODES: [Code; 43] = [
    Code::Vbar,
    Code::Vcch,
    Code::Vcfg,
    Code::Vdjr,
    Code::Vdpr,
    Code::Vdrd,
    Code::Vdrs,
    Code::Vdus,
    Code::Veen,
    Code::Vevi,
    Code::Vffd,
    Code::Vgce,
    Code::Vgci,
    Code::Vgcp,
    Code::Vhpr,
    Code::Vhrc,
    Code::Vlel,
    Code::Vmfn,
    Code::Vmrc,
    Code::Vmss,
    Code::Vrfa,
    Code::Vsrp,
    Code::Vsrt,
    Code::Vtct,
    Code::Vuar,
    Code::Vuex,
    Code::Vuot,
    Code::Vuta,
    Code::Vwbe,
    Code::Xanc,
    Code::Xdup,
    Code::Xgen,
    Code::Xker,
    Code::Xlex,
    Code::Xlim,
    Code::Xlst,
    Code::Xmrk,
    Code::Xopr,
    Code::Xout,
    Code::Xrep,
    Code::Xsyn,
    Code::Xuse,
    Code::Xyet,
];

#[test]
fn codes_stand_in_the_order_of_their_texts(rt: HostRuntime) {
    let mut last: &[u8] = b"";
    let mut number = 0u8;
    for code in CODES {
        assert!(rt; last < code.text(), "at {code:?}");
        assert_eq!(rt; code as u8, number);
        last = code.text();
        number = number.saturating_add(1);
    }
}

#[test]
fn lists_of_faults_grow(rt: HostRuntime) -> Result<(), Fail> {
    let alloc = rt.alloc();
    let class = Name::from_bytes(alloc, b"ACCOUNT_2")?;
    assert_eq!(rt; class.text(), b"account_2".as_slice());
    let about = Bytes::from_slice(alloc, b"A b")?;
    assert_eq!(rt; about.as_slice(), b"A b".as_slice());
    let fault = Fault {
        code: Code::Vmfn,
        case: 2,
        feature: class.copy(alloc)?,
        class,
        place: Place {
            file: NO_FILE,
            offset: 0,
            line: 1,
            column: 1,
        },
        about: Name::from_bytes(alloc, b"")?,
    };
    let mut faults = FaultList::new(alloc);
    faults.push(fault.copy(alloc)?)?;
    let mut more = FaultList::new(alloc);
    more.push(fault)?;
    faults.merge(&more)?;
    assert!(rt; !faults.is_empty());
    assert_eq!(rt; faults.iter().count(), 2);
    assert_eq!(rt; faults.count(), 2);
    assert_eq!(rt; faults.at(1).feature.text(), b"account_2".as_slice());
    base_crosses();
    OpenGate.pass(3);
    Ok(())
}

#[test]
fn texts_are_numbered_as_they_come(rt: HostRuntime) -> Result<(), Fail> {
    let mut names = Names::new(rt.alloc());
    assert_eq!(rt; names.intern(b"deposit")?.0, 0);
    assert_eq!(rt; names.intern(b"balance")?.0, 1);
    let deposit = names.intern(b"deposit")?;
    assert_eq!(rt; deposit.0, 0);
    assert_eq!(rt; names.find(b"balance").map(|id| id.0), Some(1));
    assert_eq!(rt; names.find(b"owner").map(|id| id.0), None);
    assert_eq!(rt; names.text(deposit), b"deposit".as_slice());
    assert_eq!(rt; names.count(), 2);
    Ok(())
}

#[test]
fn a_set_takes_a_name_once(rt: HostRuntime) -> Result<(), Fail> {
    let alloc = rt.alloc();
    let balance = Name::from_bytes(alloc, b"Balance")?;
    let mut names = NameSet::new(alloc);
    assert!(rt; !names.has(&balance));
    assert_eq!(rt; names.insert(&balance), Ok(true));
    assert_eq!(rt; names.insert(&balance), Ok(false));
    assert!(rt; names.has(&Name::from_bytes(alloc, b"BALANCE")?));
    assert!(rt; !names.has(&Name::from_bytes(alloc, b"owner")?));
    Ok(())
}

#[test]
fn files_are_read_up_to_a_limit(rt: HostRuntime) -> Result<(), Fail> {
    let alloc = rt.alloc();
    fs::write(&rt, "eif_base_texts.e", "class A end\n")?;
    let mut texts = FileTexts::new(&rt, alloc);
    let mut into = Vec::from_slice(alloc, b"old")?;
    let name = "eif_base_texts.e";
    assert_eq!(rt;
        texts.read(alloc, name, 11, &mut into),
        Ok(ReadEnd::TooLong)
    );
    assert_eq!(rt; into.as_slice(), b"old".as_slice());
    assert_eq!(rt; texts.read(alloc, name, 12, &mut into), Ok(ReadEnd::Whole));
    assert_eq!(rt; into.as_slice(), b"oldclass A end\n".as_slice());
    assert_eq!(rt;
        texts.read(alloc, name, u64::MAX, &mut into),
        Ok(ReadEnd::Whole)
    );
    fs::remove_file(&rt, name)?;
    assert_eq!(rt;
        texts.read(alloc, name, 12, &mut into),
        Err(ReadFail::Failed)
    );
    assert_eq!(rt; into.len(), 27);
    Ok(())
}

#[test]
fn standard_output_takes_pieces(rt: HostRuntime) {
    let mut out = OutSink::new(io::writer(&rt));
    assert_eq!(rt; out.write(b""), Ok(()));
    assert_eq!(rt; out.write(b"a piece\n"), Ok(()));
}

/// A writer that takes three bytes a piece, and none past its room.
#[derive(Drop)]
struct Narrow<'v> {
    taken: &'v mut Vec<u8>,
    room: usize,
}

impl Write for Narrow<'_> {
    fn write(&mut self, bytes: &[u8]) -> io::Result<usize> {
        let left = self.room.saturating_sub(self.taken.len());
        let count = bytes.len().min(3).min(left);
        self.taken.extend_from_slice(&bytes[..count])?;
        Ok(count)
    }

    fn flush(&mut self) -> io::Result<()> {
        Ok(())
    }
}

#[test]
fn a_writer_that_takes_no_more_is_a_fault(rt: HostRuntime) -> Result<(), Fail> {
    let mut taken = Vec::new(rt.alloc());
    let mut sink = OutSink::new(Narrow {
        taken: &mut taken,
        room: 12,
    });
    assert_eq!(rt; sink.write(b"yes 1 "), Ok(()));
    assert_eq!(rt; sink.write(b"classes\n"), Err(WriteFail::Failed));
    assert_eq!(rt; sink.write(b"\n"), Err(WriteFail::Failed));
    assert_eq!(rt; sink.write(b""), Ok(()));
    assert_eq!(rt; taken.as_slice(), b"yes 1 classe".as_slice());
    Ok(())
}

#[test]
fn a_named_read_fails(rt: HostRuntime) -> Result<(), Fail> {
    let alloc = rt.alloc();
    let mut texts = MemTexts::new(alloc);
    texts.put("a.e", Vec::from_slice(alloc, b"old")?)?;
    texts.put("a.e", Vec::from_slice(alloc, b"new")?)?;
    texts.fail(2)?;
    let mut into = Vec::new(alloc);
    assert_eq!(rt; texts.read(alloc, "a.e", 3, &mut into), Ok(ReadEnd::Whole));
    assert_eq!(rt;
        texts.read(alloc, "a.e", 3, &mut into),
        Err(ReadFail::Failed)
    );
    assert_eq!(rt;
        texts.read(alloc, "a.e", 2, &mut into),
        Ok(ReadEnd::TooLong)
    );
    assert_eq!(rt;
        texts.read(alloc, "b.e", 2, &mut into),
        Err(ReadFail::Failed)
    );
    assert_eq!(rt; into.as_slice(), b"new".as_slice());
    Ok(())
}

#[test]
fn an_absent_name_holds_nothing(rt: HostRuntime) -> Result<(), Fail> {
    let alloc = rt.alloc();
    let mut texts = SureTexts::new(alloc);
    texts.put("a.e", Vec::from_slice(alloc, b"text")?)?;
    let mut into = Vec::new(alloc);
    assert_eq!(rt; texts.read(alloc, "b.e", 0, &mut into), Ok(ReadEnd::Whole));
    assert_eq!(rt; texts.read(alloc, "a.e", 4, &mut into), Ok(ReadEnd::Whole));
    assert_eq!(rt; into.as_slice(), b"text".as_slice());
    Ok(())
}

#[test]
fn a_named_write_lets_bytes_through(rt: HostRuntime) -> Result<(), Fail> {
    let mut sink = MemSink::new(rt.alloc(), 8)?;
    sink.fail(2, 1)?;
    assert_eq!(rt; sink.write(b"abc"), Ok(()));
    assert_eq!(rt; sink.write(b""), Ok(()));
    assert_eq!(rt; sink.write(b"def"), Err(WriteFail::Failed));
    assert_eq!(rt; sink.written(), b"abcd".as_slice());
    assert_eq!(rt; sink.write(b"efghi"), Err(WriteFail::Failed));
    assert_eq!(rt; sink.written(), b"abcdefgh".as_slice());
    Ok(())
}

#[test]
fn bytes_are_counted_and_summed(rt: HostRuntime) {
    let mut sink = SureSink::new();
    assert_eq!(rt; sink.write(b"\xff\xff"), Ok(()));
    assert_eq!(rt; sink.write(b"\x02"), Ok(()));
    assert_eq!(rt; sink.count(), 3);
    assert_eq!(rt; sink.sum(), 512);
}
