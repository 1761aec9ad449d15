//! Tests of `exec`, `list`, `assemble`, `verify`, `save` and `resume`.

use crate::calls::{answer, lines, words, written};
use crate::telling::told;
use std::alloc::Global;
use std::test::Fail;
use verse_outside::memory_files::MemFiles;
use verse_outside::memory_sinks::MemSink;
use verse_top_listing::{assembled_once, listed_is_assembled, listed_once};
use verse_top_verify::{passed_is_never_stuck, verified_once};

// two arms of a race that sleep 2 and 1 seconds
const RACE: &str =
    "5653494d0101120304736c6f7704666173740561667465720400020500051200081200090a010000000100003c0102003d043d09260e35d00f09050034013f35e80709050134023f09050234032f";

// a round of examples
const ROUND: &str =
    "5653494d01018b0106012003416e6e0474696d650b646f776e206166746572200673636f726520086e6f2073636f726512000f0500130900140f00140e001a0a001b1e001b05001d0900200500231200261100271300271200290f00290e002b0e000c090009170501030001010b2e0102028301000000870100000089010001030102010000210008010701220009262807002202380802070209070007022e0001090701000123000001010907002200050007002201120302340309292607002201000014092a26292627010928070109070122002f0501080107012d032d0424000408020702091a00052106080307032200093e511900070804294f07002a3005264e294e2a35904e09070222020707393304073205074507043f093c0102083d563d5b267135e0d40309050234093f07022d000809070909296a0703070222000709230001000a092a01266b01090503070912020b340c3f092980010703220005011f080a070a092a0504070a12020d340e2682010505340f2f0700070123010002102f00e4002f25112f";

// an image of a row by its name, or by its bytes
fn image_named(name: &str) -> &str {
    match name.as_bytes() {
        b"RACE" => RACE,
        b"ROUND" => ROUND,
        _ => name,
    }
}

// the status, the options, the image in the file `i`, and what `exec i` writes with these options;
// `~` is a line feed
const ROWS: &str =
    "0``5653494d010103010268690100020a01000000000000050034002f`0 hi~= done at 0 steps 1 live 0~
0`--heap`5653494d01011c0204676f6e65026e6f0600020500030900031900040e00060f00060e010001000000000001210008000700220009291707000005230000000109050034020907002200000313092a05013403261b0700220012010434052f`0 1~@0 var 1~= done at 0 steps 1 live 0~
0`--heap`5653494d01012300040002050003130003230003050100070000000000002100080007002200091900010801291d000100042a3102261c291c070007042300000102090704000210000017092a07043301013202040e070121030806070622002f`@0 var 6~@1 var array{2, 4}~= done at 0 steps 5 live 0~
4`--heap`5653494d01011b0202696e026e6f0500020500030e00031600033500040e010001000000000001210008000700220009291905003401090700000723000000020900ffffffffffffffffff00070022000a03000015092a05013404261a012f`0 in~@0 var 7~= error K1 3:53 at 0 steps 1~
3`--steps 3`5653494d010116030166016d026e6f0300020a00050a00070e020000000000000500000105003400092d002f05013401092914290e2d00092b2c01092a050234022615012f`0 m~0 f~0 f~= steps at 0 steps 3~
0``RACE`1000 fast~1000 after~= done at 1000 steps 4 live 0~
3`--until 1500`5653494d01010901047469636b0100040e01000000010000260635e8070905003400092801012f`1000 tick~= until at 1000 steps 4 live 1~
3``5653494d010102000001000000010000362f`= waiting at 0 steps 1 live 1~
0`--in 3,-4`5653494d01010e000200030f00030e01010200000000290c070000011f08010701092a07011201003401260d012f`0 -4~= done at 0 steps 1 live 0~
0`--heap`5653494d01013e04016201610163017a0800021900020500030900031900040900050500051e00051d0100060000000005000001050100021a0200210108000700220009291f0700050000052300010002090700050200032300010003090700220005031f000017092a0126200109292a0700050000072300010004092a01262b01091900050801293c070022002a3002263b293b2a0705070412020634073301053202043407012f`0 b7~0 a2~@0 var map{\"b\" => 7, \"a\" => 2}~= done at 0 steps 3 live 0~
0`--in 30,80 --heap`5653494d01018b0106012003416e6e0474696d650b646f776e206166746572200673636f726520086e6f2073636f726512000d0500110900120f00120e00180a00191e001905001b09001e0500211200241100251300251200270f00270e00290e000a090007170501030001010b2e0102028301000000870100000089010001030102010000210008010701220009262807002202380802070209070007022e0001090701000123000001010907002200050007002201120302340309292607002201000014092a26292627010928070109070122002f0501080107012d032d0424000408020702091a00052106080307032200093e511900070804294f07002a3005264e294e2a35904e09070222020707393304073205074507043f093c0102083d563d5b267135e0d40309050234093f07022d000809070909296a0703070222000709230001000a092a01266b01090503070912020b340c3f092980010703220005011f080a070a092a0504070a12020d340e2682010505340f2f0700070123010002102f00e4002f25112f`10000 Ann 70~20000 Ann -10~20000 down after 2~20000 score 2~@0 event~@1 obj 0 \"Ann\" -10 !0~@2 var map{\"Ann\" => 2}~@3 var 2~= done at 20000 steps 17 live 0~
3`--steps 0`RACE`= steps at 0 steps 0~
3`--until 999`RACE`= until at 0 steps 3 live 2~
0`--heap`RACE`1000 fast~1000 after~= done at 1000 steps 4 live 0~
3`--steps 2`RACE`= steps at 0 steps 2~
0``5653494d01018b0106012003416e6e0474696d650b646f776e206166746572200673636f726520086e6f2073636f726512000d0500110900120f00120e00180a00191e001905001b09001e0500211200241100251300251200270f00270e00290e000a090007170501030001010b2e0102028301000000870100000089010001030102010000210008010701220009262807002202380802070209070007022e0001090701000123000001010907002200050007002201120302340309292607002201000014092a26292627010928070109070122002f0501080107012d032d0424000408020702091a00052106080307032200093e511900070804294f07002a3005264e294e2a35904e09070222020707393304073205074507043f093c0102083d563d5b267135e0d40309050234093f07022d000809070909296a0703070222000709230001000a092a01266b01090503070912020b340c3f092980010703220005011f080a070a092a0504070a12020d340e2682010505340f2f0700070123010002102f00e4002f25112f`60000 time~60000 no score~= done at 60000 steps 9 live 0~
0`--in 30`5653494d01018b0106012003416e6e0474696d650b646f776e206166746572200673636f726520086e6f2073636f726512000d0500110900120f00120e00180a00191e001905001b09001e0500211200241100251300251200270f00270e00290e000a090007170501030001010b2e0102028301000000870100000089010001030102010000210008010701220009262807002202380802070209070007022e0001090701000123000001010907002200050007002201120302340309292607002201000014092a26292627010928070109070122002f0501080107012d032d0424000408020702091a00052106080307032200093e511900070804294f07002a3005264e294e2a35904e09070222020707393304073205074507043f093c0102083d563d5b267135e0d40309050234093f07022d000809070909296a0703070222000709230001000a092a01266b01090503070912020b340c3f092980010703220005011f080a070a092a0504070a12020d340e2682010505340f2f0700070123010002102f00e4002f25112f`10000 Ann 70~60000 time~60000 no score~= done at 60000 steps 14 live 0~
3`--in 1,-1 --until 15000 --heap`5653494d01018b0106012003416e6e0474696d650b646f776e206166746572200673636f726520086e6f2073636f726512000d0500110900120f00120e00180a00191e001905001b09001e0500211200241100251300251200270f00270e00290e000a090007170501030001010b2e0102028301000000870100000089010001030102010000210008010701220009262807002202380802070209070007022e0001090701000123000001010907002200050007002201120302340309292607002201000014092a26292627010928070109070122002f0501080107012d032d0424000408020702091a00052106080307032200093e511900070804294f07002a3005264e294e2a35904e09070222020707393304073205074507043f093c0102083d563d5b267135e0d40309050234093f07022d000809070909296a0703070222000709230001000a092a01266b01090503070912020b340c3f092980010703220005011f080a070a092a0504070a12020d340e2682010505340f2f0700070123010002102f00e4002f25112f`10000 Ann 99~@0 event~@1 obj 0 \"Ann\" 99 !0~@2 var map{}~@3 var 1~= until at 10000 steps 14 live 3~
1``5653494d0101120304736c6f7704666173740561667465720400020500051200081200090a010000000100003c0102003d043d09260e35d00f09050034013f35e80709050134023f0905023403`= image I3 77~
1``5653494d0101120304736c6f7704666173740561667465720400020500051200081200090a010000000100003c0102003d043d09260e35d00f09050034013f35e80709050134023f09050234032f00`= image I7 78~
8``5653494d0101010000010000000000002f`= stuck at 0 steps 1~
0``5653494d010102000001000000000000012f`= done at 0 steps 1 live 0~
1``5653494d01810002000001000000000000012f`= image I4 5~
1```= image I3 0~
1``5753494d010102000001000000000000012f`= image I1 0~
1``5653494d030102000001000000000000012f`= image I2 4~
1``5653494d010002000001000000000000012f`= image I5 5~
1``5653494d010102000001000002000000012f`= image I5 12~
1``5653494d010102000001000000000000402f`= image I6 16~
1``5653494d`= image I3 4~
1``5653494d01808080808080`= image I4 5~
1``ff`= image I1 0~
0`--heap`5653494d020102000001000000000000012f`= done at 0 steps 1 live 0~
0``5653494d02011b030177016203656e640300030e000612000b0a0200000001000016010001400505003400094201093e12400d05013401094201093641003f0935e80741002f2d0009050234022f`1000 w~1000 b~1000 end~= done at 1000 steps 6 live 0~";

fn digit(letter: u8) -> Option<u8> {
    match letter {
        b'0'..=b'9' => letter.checked_sub(b'0'),
        b'a'..=b'f' => letter.checked_sub(b'a')?.checked_add(10),
        _ => None,
    }
}

fn bytes_of(alloc: Global, text: &str) -> Result<Vec<u8>, Fail> {
    let mut bytes = Vec::new(alloc);
    let mut high = None;
    for letter in text.as_bytes() {
        let low = digit(*letter).ok_or("a digit")?;
        match high {
            None => high = Some(low),
            Some(first) => {
                bytes.push(first << 4 | low)?;
                high = None;
            }
        }
    }
    Ok(bytes)
}

// a file `i` of these bytes
fn one_file(alloc: Global, bytes: &[u8]) -> Result<MemFiles, Fail> {
    let mut files = MemFiles::new(alloc);
    files.add("i", bytes)?;
    Ok(files)
}

// the answer to a command over the file `i` of these bytes
fn answer_of(alloc: Global, command: &str, options: &str, bytes: &[u8]) -> Result<Vec<u8>, Fail> {
    let mut files = one_file(alloc, bytes)?;
    let command = format!(in alloc; "{command} i {options}")?;
    answer(alloc, command.as_str(), &mut files)
}

// whether the image of a row runs as the row has it
fn runs_so(alloc: Global, row: &str) -> Result<bool, Fail> {
    let (status, rest) = row.split_once('`').ok_or("a status")?;
    let (options, rest) = rest.split_once('`').ok_or("options")?;
    let (bytes, text) = rest.split_once('`').ok_or("bytes and a text")?;
    let image = bytes_of(alloc, image_named(bytes))?;
    let told = answer_of(alloc, "exec", options, image.as_slice())?;
    let expected = written(alloc, status, text)?;
    Ok(told.as_slice() == expected.as_slice())
}

#[test]
fn images_run(rt: HostRuntime) -> Result<(), Fail> {
    let alloc = rt.alloc();
    let mut count = 0u64;
    for row in ROWS.lines() {
        assert!(rt; runs_so(alloc, row)?, "{row}");
        count = count.saturating_add(1);
    }
    assert_eq!(rt; count, 34);
    Ok(())
}

// How an image of version 2 begins that needs none: it is written anew in version 1.
const NEEDLESS_VERSION: &str = "5653494d0201020000";

// whether what is listed of an image is assembled to the image
fn is_listed(alloc: Global, bytes: &str) -> Result<bool, Fail> {
    let image = bytes_of(alloc, image_named(bytes))?;
    let listed = answer_of(alloc, "list", "", image.as_slice())?;
    let listing = listed
        .as_slice()
        .strip_prefix(b"0`".as_slice())
        .ok_or("a listing")?;
    let assembled = answer_of(alloc, "assemble", "", listing)?;
    Ok(assembled.as_slice().strip_prefix(b"0`".as_slice()) == Some(image.as_slice()))
}

#[test]
fn what_is_listed_is_assembled(rt: HostRuntime) -> Result<(), Fail> {
    let alloc = rt.alloc();
    listed_once();
    assembled_once();
    listed_is_assembled();
    for row in ROWS.lines() {
        let (_, rest) = row.split_once('`').ok_or("a status")?;
        let (_, rest) = rest.split_once('`').ok_or("options")?;
        let (bytes, text) = rest.split_once('`').ok_or("bytes and a text")?;
        let is_skipped = text.starts_with("= image") || bytes.starts_with(NEEDLESS_VERSION);
        assert!(rt; is_skipped || is_listed(alloc, bytes)?, "{row}");
    }
    Ok(())
}

// the status, the bytes of an image and of its notes in hexadecimal, and what `verify` writes
const NOTES: &str =
    "0`5653494d010102000001000000000000012f`56534e540100000100000000010000010300`= ok~
1`5653494d010102000001000000000000012f`56534e540100000100000000010000010500`= notes V7 0~
1`5653494d010102000001000000000000012f`56534e5401000001000000000100000103`= notes V1 17~
1`5653494d0101010000010000000000002f`56534e540100000100000000`= notes V4 0~
1`5653494d010102000001000000000000402f`56534e540100000100000000010000010300`= image I6 16~
1`56`ff`= image I3 1~";

// whether the notes of a row are told of as the row has it, and before that their absence
fn is_verified_so(alloc: Global, row: &str) -> Result<bool, Fail> {
    let (status, rest) = row.split_once('`').ok_or("a status")?;
    let (image, rest) = rest.split_once('`').ok_or("an image")?;
    let (notes, text) = rest.split_once('`').ok_or("notes and a text")?;
    let mut files = one_file(alloc, bytes_of(alloc, image)?.as_slice())?;
    let absent = answer(alloc, "verify i n", &mut files)?;
    files.add("n", bytes_of(alloc, notes)?.as_slice())?;
    let told = answer(alloc, "verify i n", &mut files)?;
    let expected = written(alloc, status, text)?;
    Ok(absent.as_slice() == b"6`= read n\n".as_slice() && told.as_slice() == expected.as_slice())
}

#[test]
fn notes_are_verified(rt: HostRuntime) -> Result<(), Fail> {
    let alloc = rt.alloc();
    verified_once();
    passed_is_never_stuck();
    for row in NOTES.lines() {
        assert!(rt; is_verified_so(alloc, row)?, "{row}");
    }
    Ok(())
}

// the status, the options, the image, and how what `save` writes of it begins: all of it, where no
// run is saved; then the options, the status and the text of `resume`
const SAVES: &str =
    "3`--until 500`RACE`= saved at 0 steps 3 live 2~``0`1000 fast~1000 after~= done at 1000 steps 4 live 0~
3`--until 999`RACE`= saved at 0 steps 3 live 2~`--until 999`3`= until at 0 steps 3 live 2~
3`--in 30,80 --until 15000`ROUND`10000 Ann 70~= saved at 10000 steps 14 live 3~`--heap`0`20000 Ann -10~20000 down after 2~20000 score 2~@0 event~@1 obj 0 \"Ann\" -10 !0~@2 var map{\"Ann\" => 2}~@3 var 2~= done at 20000 steps 17 live 0~
3`--in 30,80 --until 15000 --steps 15`ROUND`10000 Ann 70~= saved at 10000 steps 14 live 3~``3`= steps at 20000 steps 15~
0``RACE`1000 fast~1000 after~= done at 1000 steps 4 live 0~``1`= state S1 51~
3`--steps 0`RACE`= steps at 0 steps 0~`--heap`1`= state S1 21~
8`--until 0`5653494d0101010000010000000000002f`= stuck at 0 steps 1~``1`= state S1 21~
1``5653494d`= image I3 4~`--until 5`1`= state S1 13~";

// what `save` answers, where it begins as a row has it
fn saved(alloc: Global, row: &str) -> Result<Vec<u8>, Fail> {
    let mut parts = row.split('`');
    let status = parts.next().ok_or("a status")?;
    let options = parts.next().ok_or("options")?;
    let image = bytes_of(alloc, image_named(parts.next().ok_or("an image")?))?;
    let begin = written(alloc, status, parts.next().ok_or("a text")?)?;
    let saved = answer_of(alloc, "save", options, image.as_slice())?;
    if saved.as_slice().starts_with(begin.as_slice()) {
        Ok(saved)
    } else {
        Err(Fail::from("another beginning"))
    }
}

// what was written, behind the status
fn behind_status(answer: &[u8]) -> &[u8] {
    match answer {
        [_, b'`', bytes @ ..] => bytes,
        _ => &[],
    }
}

// whether what was saved goes on as a row has it
fn goes_on_so(alloc: Global, row: &str) -> Result<bool, Fail> {
    let saved = saved(alloc, row)?;
    let mut parts = row.split('`').skip(4);
    let options = parts.next().ok_or("options")?;
    let status = parts.next().ok_or("a status")?;
    let expected = written(alloc, status, parts.next().ok_or("a text")?)?;
    let told = answer_of(alloc, "resume", options, behind_status(saved.as_slice()))?;
    Ok(told.as_slice() == expected.as_slice())
}

#[test]
fn saved_runs_go_on(rt: HostRuntime) -> Result<(), Fail> {
    let alloc = rt.alloc();
    for row in SAVES.lines() {
        assert!(rt; goes_on_so(alloc, row)?, "{row}");
    }
    Ok(())
}

const SAVED_LINE: &str = "= saved at 0 steps 3 live 2~";

// each proper front of a saved run ends too early, before its line and behind it
#[test]
fn fronts_are_no_saved_runs(rt: HostRuntime) -> Result<(), Fail> {
    let alloc = rt.alloc();
    let image = bytes_of(alloc, RACE)?;
    let saved = answer_of(alloc, "save", "--until 500", image.as_slice())?;
    let file = behind_status(saved.as_slice());
    assert!(rt; file.starts_with(lines(alloc, SAVED_LINE)?.as_slice()));
    for count in 0..file.len() {
        let rule = if count < SAVED_LINE.len() {
            "= state S1"
        } else {
            "= state S3"
        };
        let line = format!(in alloc; "1`{rule} {count}\n")?;
        let told = answer_of(alloc, "resume", "", &file[..count])?;
        assert_eq!(rt; told.as_slice(), line.as_bytes());
    }
    Ok(())
}

// each proper front of an image ends too early
#[test]
fn fronts_are_no_images(rt: HostRuntime) -> Result<(), Fail> {
    let alloc = rt.alloc();
    let image = bytes_of(alloc, RACE)?;
    for count in 0..image.len() {
        let told = answer_of(alloc, "exec", "", &image[..count])?;
        let line = format!(in alloc; "1`= image I3 {count}\n")?;
        assert_eq!(rt; told.as_slice(), line.as_bytes());
    }
    Ok(())
}

// where the write of one byte fails, those before it are taken
#[test]
fn writes_fail_in_turn(rt: HostRuntime) -> Result<(), Fail> {
    let alloc = rt.alloc();
    let command = words(alloc, "exec i --heap")?;
    let whole = b"1000 fast\n1000 after\n= done at 1000 steps 4 live 0\n".as_slice();
    let mut files = one_file(alloc, bytes_of(alloc, RACE)?.as_slice())?;
    for call in 0..whole.len() {
        let mut out = MemSink::new(alloc, 100, 1)?;
        out.fail_at(call as u64)?;
        let status = told(alloc, command.as_slice(), &mut files, &mut out);
        assert!(rt; status == 7 && out.taken() == &whole[..call]);
    }
    Ok(())
}
