// Parameters of a page at the ends of their ranges, and ids and numbers as texts.
use bl_feed::{
    StreamParameter, cancelled_json, id_text, read_id, read_number, read_page_ask, submitted_json,
};
use bl_stream::{Iterator4, PageAsk};

// The values of limit, iteratorType, commitNum and opNum; an empty one is absent.
fn asked(limit: &str, kind: &str, commit: &str, op: &str) -> Result<PageAsk, StreamParameter> {
    read_page_ask(given(limit), given(kind), given(commit), given(op))
}

fn given(value: &str) -> Option<&[u8]> {
    if value.is_empty() {
        None
    } else {
        Some(value.as_bytes())
    }
}

fn page(iterator: Iterator4, limit: u32) -> Result<PageAsk, StreamParameter> {
    Ok(PageAsk { iterator, limit })
}

const LEAST_LARGE: &str = "18446744073709551616";

const GREATEST: &str = "18446744073709551615";

#[test]
fn pages_that_are_asked_for(rt: HostRuntime) {
    let most = u64::MAX;
    for (limit, kind, commit, op, iterator, events) in [
        ("", "TRIM_HORIZON", "", "", Iterator4::TrimHorizon, 10),
        ("1", "LATEST", "", "", Iterator4::Latest, 1),
        ("100000", "LATEST", "", "", Iterator4::Latest, 100_000),
        (
            "00000000000000000007",
            "LATEST",
            "9",
            "9",
            Iterator4::Latest,
            7,
        ),
        ("", "", "2", "", Iterator4::At(2, 1), 10),
        ("", "", "0", "0", Iterator4::At(0, 0), 10),
        (
            "",
            "AT_SEQUENCE_NUMBER",
            "1",
            "999",
            Iterator4::At(1, 999),
            10,
        ),
        (
            "",
            "AFTER_SEQUENCE_NUMBER",
            "2",
            "1",
            Iterator4::After(2, 1),
            10,
        ),
        (
            "",
            "AFTER_SEQUENCE_NUMBER",
            GREATEST,
            GREATEST,
            Iterator4::After(most, most),
            10,
        ),
    ] {
        assert!(rt; asked(limit, kind, commit, op) == page(iterator, events));
    }
}

#[test]
fn the_first_refused_parameter_is_named(rt: HostRuntime) {
    for (limit, kind, commit, op, want) in [
        ("0", "x", "x", "x", StreamParameter::Limit),
        ("100001", "LATEST", "", "", StreamParameter::Limit),
        ("+1", "LATEST", "", "", StreamParameter::Limit),
        (
            "000000000000000000001",
            "LATEST",
            "",
            "",
            StreamParameter::Limit,
        ),
        ("", "", "", "", StreamParameter::IteratorType),
        ("1", "latest", "x", "x", StreamParameter::IteratorType),
        (
            "",
            "AT_SEQUENCE_NUMBER",
            "",
            "x",
            StreamParameter::CommitNum,
        ),
        (
            "",
            "AFTER_SEQUENCE_NUMBER",
            "",
            "",
            StreamParameter::CommitNum,
        ),
        ("", "", LEAST_LARGE, "x", StreamParameter::CommitNum),
        ("", "LATEST", LEAST_LARGE, "", StreamParameter::CommitNum),
        ("", "LATEST", "-1", "", StreamParameter::CommitNum),
        ("", "TRIM_HORIZON", "", LEAST_LARGE, StreamParameter::OpNum),
        ("", "", "1", "1 ", StreamParameter::OpNum),
    ] {
        assert!(rt; asked(limit, kind, commit, op) == Err(want));
    }
    assert!(rt; StreamParameter::Limit.name() == "limit");
    assert!(rt; StreamParameter::IteratorType.name() == "iteratorType");
    assert!(rt; StreamParameter::CommitNum.name() == "commitNum");
    assert!(rt; StreamParameter::OpNum.name() == "opNum");
}

#[test]
fn numbers_have_1_to_20_digits(rt: HostRuntime) {
    for (text, want) in [
        ("1", Some(1)),
        ("00000000000000000012", Some(12)),
        ("100", Some(100)),
        ("", None),
        ("0", None),
        ("101", None),
        ("99999999999999999999", None),
        ("000000000000000000012", None),
        ("+1", None),
        ("1_0", None),
        ("\u{663}", None),
    ] {
        assert!(rt; read_number(text.as_bytes(), 1, 100) == want);
    }
    assert!(rt; read_number(GREATEST.as_bytes(), 0, u64::MAX) == Some(u64::MAX));
    assert!(rt; read_number(LEAST_LARGE.as_bytes(), 0, u64::MAX).is_none());
    assert!(rt; read_number(b"\xff", 0, u64::MAX).is_none());
}

#[test]
fn ids_in_four_forms(rt: HostRuntime) {
    let id = 0x0011_2233_4455_4677_8899_0000_0000_00AB;
    for text in [
        "00112233-4455-4677-8899-0000000000ab",
        "00112233-4455-4677-8899-0000000000AB",
        "001122334455467788990000000000ab",
        "{00112233-4455-4677-8899-0000000000ab}",
        "urn:uuid:00112233-4455-4677-8899-0000000000ab",
    ] {
        assert!(rt; read_id(text.as_bytes()) == Some(id));
    }
    for text in [
        "",
        "00112233-4455-4677-8899-0000000000a",
        "00112233-4455-4677-8899-0000000000ag",
        "00112233-4455-4677-8899-0000000000ab ",
        "(00112233-4455-4677-8899-0000000000ab)",
    ] {
        assert!(rt; read_id(text.as_bytes()).is_none());
    }
    assert!(rt; read_id(b"\xff").is_none());
    let text = id_text(rt.alloc(), id).expect(&rt, "memory");
    assert!(rt; text.as_slice() == b"00112233-4455-4677-8899-0000000000ab".as_slice());
}

#[test]
fn bodies_of_success(rt: HostRuntime) {
    let id = 0x4000_8000_0000_0000_0001;
    let body = submitted_json(rt.alloc(), id).expect(&rt, "memory");
    let want =
        b"{\"payload\":{\"loadId\":\"00000000-0000-4000-8000-000000000001\"},\"status\":\"200 OK\"}";
    assert!(rt; body.as_slice() == want.as_slice());
    let body = cancelled_json(rt.alloc()).expect(&rt, "memory");
    assert!(rt; body.as_slice() == b"{\"status\":\"200 OK\"}".as_slice());
}
