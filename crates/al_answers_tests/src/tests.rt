use crate::samples::{text_of, texts};
use al_answers::{
    Answer, ErrorName, More, bad_head_text, bad_length_text, coding_text, memory_text,
    too_large_text,
};
use std::alloc::{AllocError, Global};
use std::test::*;

/// The answers in their order: the status with its phrase, the length of the body, and the body.
const ANSWERS: &str = "\
200 OK|21|{\"front\":0,\"round\":0}\n\
200 OK|21|{\"front\":1,\"round\":1}\n\
200 OK|75|{\"account\":{\"min\":100000,\"status\":\"Not Participating\"},\"front\":8,\"round\":0}\n\
200 OK|396|{\"account\":{\"min\":100000,\"status\":\"Online\",\"vote\":{\"dilution\":0,\"first\":0,\"last\":0,\"selection\":\"0000000000000000000000000000000000000000000000000000000000000000\",\"sprf\":\"00000000000000000000000000000000000000000000000000000000000000000000000000000000000000000000000000000000000000000000000000000000\",\"vote\":\"0000000000000000000000000000000000000000000000000000000000000000\"}},\"front\":1,\"round\":0}\n\
200 OK|640|{\"account\":{\"apps_created\":1,\"apps_opted\":2,\"assets_created\":3,\"assets_held\":4,\"auth\":\"CYLBMFQWCYLBMFQWCYLBMFQWCYLBMFQWCYLBMFQWCYLBMFQWCYLO6DB7M4\",\"balance\":5000000,\"base\":1,\"box_bytes\":5,\"boxes\":6,\"byte_slices\":7,\"extra_pages\":8,\"min\":2223500,\"pending\":50,\"status\":\"Online\",\"uints\":9,\"vote\":{\"dilution\":10,\"first\":1,\"last\":30,\"selection\":\"0808080808080808080808080808080808080808080808080808080808080808\",\"sprf\":\"09090909090909090909090909090909090909090909090909090909090909090909090909090909090909090909090909090909090909090909090909090909\",\"vote\":\"0707070707070707070707070707070707070707070707070707070707070707\"}},\"front\":9,\"round\":7}\n\
200 OK|163|{\"account\":{\"apps_created\":1,\"assets_created\":1,\"assets_held\":1,\"balance\":999997003,\"byte_slices\":2,\"min\":428500,\"status\":\"Offline\",\"uints\":1},\"front\":8,\"round\":8}\n\
200 OK|32|{\"asset\":{},\"front\":1,\"round\":1}\n\
200 OK|69|{\"asset\":{\"holding\":{\"amount\":0,\"frozen\":false}},\"front\":4,\"round\":4}\n\
200 OK|43|{\"asset\":{\"params\":{}},\"front\":2,\"round\":1}\n\
200 OK|616|{\"asset\":{\"holding\":{\"amount\":18446744073709551615,\"frozen\":true},\"params\":{\"freeze\":\"CQKBIFAUCQKBIFAUCQKBIFAUCQKBIFAUCQKBIFAUCQKBIFAUCQKLOAWS3M\",\"manager\":\"CUKRKFIVCUKRKFIVCUKRKFIVCUKRKFIVCUKRKFIVCUKRKFIVCUKVPVYQKI\",\"name\":\"6e6e6e6e6e6e6e6e6e6e6e6e6e6e6e6e6e6e6e6e6e6e6e6e6e6e6e6e6e6e6e6e\",\"reserve\":\"CUKRKFIVCUKRKFIVCUKRKFIVCUKRKFIVCUKRKFIVCUKRKFIVCUKVPVYQKI\",\"total\":18446744073709551615,\"url\":\"757575757575757575757575757575757575757575757575757575757575757575757575757575757575757575757575757575757575757575757575757575757575757575757575757575757575757575757575757575757575757575757575\"}},\"front\":12,\"round\":12}\n\
200 OK|528|{\"asset\":{\"holding\":{\"amount\":1,\"frozen\":true},\"params\":{\"clawback\":\"CEIRCEIRCEIRCEIRCEIRCEIRCEIRCEIRCEIRCEIRCEIRCEIRCEI7JH2AYM\",\"decimals\":6,\"default_frozen\":true,\"freeze\":\"CQKBIFAUCQKBIFAUCQKBIFAUCQKBIFAUCQKBIFAUCQKBIFAUCQKLOAWS3M\",\"manager\":\"CUKRKFIVCUKRKFIVCUKRKFIVCUKRKFIVCUKRKFIVCUKRKFIVCUKVPVYQKI\",\"meta\":\"0707070707070707070707070707070707070707070707070707070707070707\",\"name\":\"6e616d65\",\"reserve\":\"CYLBMFQWCYLBMFQWCYLBMFQWCYLBMFQWCYLBMFQWCYLBMFQWCYLO6DB7M4\",\"total\":1000,\"unit\":\"00\",\"url\":\"2f78\"}},\"front\":3,\"round\":2}\n\
200 OK|30|{\"app\":{},\"front\":1,\"round\":0}\n\
200 OK|52|{\"app\":{\"local\":{},\"params\":{}},\"front\":1,\"round\":1}\n\
200 OK|91|{\"app\":{\"params\":{\"global_slices\":2,\"global_uints\":1,\"local_uints\":1}},\"front\":5,\"round\":5}\n\
200 OK|183|{\"app\":{\"local\":{\"slices\":1,\"state\":\"00ff\",\"uints\":2},\"params\":{\"extra_pages\":3,\"global_slices\":4,\"global_uints\":5,\"local_slices\":1,\"local_uints\":2,\"state\":\"61\"}},\"front\":6,\"round\":6}\n\
200 OK|30|{\"box\":\"\",\"front\":2,\"round\":2}\n\
200 OK|36|{\"box\":\"00abff\",\"front\":2,\"round\":1}\n\
200 OK|94|{\"creator\":\"CEIRCEIRCEIRCEIRCEIRCEIRCEIRCEIRCEIRCEIRCEIRCEIRCEI7JH2AYM\",\"front\":12,\"round\":12}\n\
200 OK|92|{\"creator\":\"AAAAAAAAAAAAAAAAAAAAAAAAAAAAAAAAAAAAAAAAAAAAAAAAAAAAY5HFKQ\",\"front\":0,\"round\":0}\n\
200 OK|78|{\"front\":0,\"online\":{\"first\":0,\"key_dilution\":0,\"last\":0,\"stake\":0},\"round\":0}\n\
200 OK|98|{\"front\":6,\"online\":{\"first\":1,\"key_dilution\":100,\"last\":3000000,\"stake\":1000000000000},\"round\":5}\n\
200 OK|59|{\"circulation\":1002298591002,\"front\":3,\"round\":3,\"vote\":30}\n\
200 OK|46|{\"circulation\":0,\"front\":0,\"round\":0,\"vote\":0}\n\
200 OK|132|{\"front\":2,\"round\":2,\"supply\":{\"not_participating\":49999810405602,\"offline\":2002598402,\"online\":1002199396002,\"sum\":51004012400006}}\n\
200 OK|85|{\"front\":0,\"round\":0,\"supply\":{\"not_participating\":0,\"offline\":0,\"online\":0,\"sum\":0}}\n\
200 OK|123|{\"front\":1,\"round\":0,\"supply\":{\"not_participating\":1,\"offline\":2,\"online\":18446744073709551612,\"sum\":18446744073709551615}}\n\
200 OK|83|{\"floor\":0,\"front\":4,\"hash\":\"P4SLMN44RDP2XBWU4XSA7EEXUZSCOO66O4A5AKCF5LNTE2MY4D2A\"}\n\
200 OK|83|{\"floor\":0,\"front\":0,\"hash\":\"AAAAAAAAAAAAAAAAAAAAAAAAAAAAAAAAAAAAAAAAAAAAAAAAAAAA\"}\n\
400 Bad Request|19|{\"error\":\"BadHead\"}\n\
400 Bad Request|21|{\"error\":\"BadLength\"}\n\
501 Not Implemented|18|{\"error\":\"Coding\"}\n\
413 Payload Too Large|20|{\"error\":\"TooLarge\"}\n\
404 Not Found|19|{\"error\":\"NoRoute\"}\n\
405 Method Not Allowed|18|{\"error\":\"Method\"}\n\
400 Bad Request|22|{\"error\":\"BadAddress\"}\n\
400 Bad Request|17|{\"error\":\"BadId\"}\n\
400 Bad Request|18|{\"error\":\"BadBox\"}\n\
400 Bad Request|20|{\"error\":\"BadQuery\"}\n\
400 Bad Request|21|{\"error\":\"Truncated\"}\n\
400 Bad Request|21|{\"error\":\"Malformed\"}\n\
400 Bad Request|20|{\"error\":\"Trailing\"}\n\
400 Bad Request|17|{\"error\":\"Field\"}\n\
400 Bad Request|17|{\"error\":\"Range\"}\n\
404 Not Found|17|{\"error\":\"NoRow\"}\n\
404 Not Found|18|{\"error\":\"TooNew\"}\n\
409 Conflict|22|{\"error\":\"WrongRound\"}\n\
409 Conflict|16|{\"error\":\"Fork\"}\n\
409 Conflict|21|{\"error\":\"WrongPrev\"}\n\
410 Gone|22|{\"error\":\"BelowFloor\"}\n\
410 Gone|25|{\"error\":\"BelowLookback\"}\n\
422 Unprocessable Entity|18|{\"error\":\"Broken\"}\n\
422 Unprocessable Entity|18|{\"error\":\"Header\"}\n\
422 Unprocessable Entity|21|{\"error\":\"PoolShort\"}\n\
422 Unprocessable Entity|19|{\"error\":\"Expired\"}\n\
503 Service Unavailable|23|{\"error\":\"KeeperFault\"}\n\
503 Service Unavailable|22|{\"error\":\"BlockFault\"}\n\
507 Insufficient Storage|18|{\"error\":\"Memory\"}\n\
422 Unprocessable Entity|42|{\"error\":\"Header\",\"field\":\"rnd\",\"front\":0}\n\
422 Unprocessable Entity|43|{\"error\":\"Header\",\"field\":\"prev\",\"front\":0}\n\
422 Unprocessable Entity|41|{\"error\":\"Header\",\"field\":\"gh\",\"front\":0}\n\
422 Unprocessable Entity|41|{\"error\":\"Header\",\"field\":\"ts\",\"front\":0}\n\
422 Unprocessable Entity|43|{\"error\":\"Header\",\"field\":\"fees\",\"front\":0}\n\
422 Unprocessable Entity|42|{\"error\":\"Header\",\"field\":\"rwd\",\"front\":0}\n\
422 Unprocessable Entity|43|{\"error\":\"Header\",\"field\":\"rate\",\"front\":0}\n\
422 Unprocessable Entity|45|{\"error\":\"Header\",\"field\":\"rwcalr\",\"front\":0}\n\
422 Unprocessable Entity|43|{\"error\":\"Header\",\"field\":\"frac\",\"front\":0}\n\
422 Unprocessable Entity|43|{\"error\":\"Header\",\"field\":\"earn\",\"front\":0}\n\
422 Unprocessable Entity|42|{\"error\":\"Header\",\"field\":\"txn\",\"front\":0}\n\
422 Unprocessable Entity|41|{\"error\":\"Header\",\"field\":\"tc\",\"front\":0}\n\
422 Unprocessable Entity|142|{\"error\":\"Broken\",\"front\":0,\"has\":99000,\"needs\":300000,\"place\":1,\"rule\":40,\"who\":\"DAMBQGAYDAMBQGAYDAMBQGAYDAMBQGAYDAMBQGAYDAMBQGAYDAMO7EC5LU\"}\n\
422 Unprocessable Entity|39|{\"error\":\"Expired\",\"front\":0,\"place\":0}\n\
409 Conflict|88|{\"error\":\"Fork\",\"front\":3,\"kept\":\"RJCVR6IYV4G2TU22WNRHYWR5RYTXPXDJAOJRRZKRKLIYNS4OCGXA\"}\n\
400 Bad Request|30|{\"at\":131,\"error\":\"Malformed\"}\n\
400 Bad Request|35|{\"error\":\"Field\",\"name\":\"66726163\"}\n\
400 Bad Request|27|{\"error\":\"Range\",\"name\":\"\"}\n\
422 Unprocessable Entity|275|{\"at\":1,\"error\":\"Broken\",\"field\":\"rnd\",\"floor\":2,\"front\":3,\"has\":4,\"id\":5,\"kept\":\"AEAQCAIBAEAQCAIBAEAQCAIBAEAQCAIBAEAQCAIBAEAQCAIBAEAQ\",\"name\":\"ff\",\"needs\":6,\"next\":7,\"place\":8,\"round\":9,\"rule\":10,\"until\":11,\"who\":\"AEAQCAIBAEAQCAIBAEAQCAIBAEAQCAIBAEAQCAIBAEAQCAIBAEA5RCDXMI\"}";

// The bytes of an answer that a line of the table says.
fn wanted(alloc: Global, line: &str) -> Result<Option<String>, AllocError> {
    let Some((status, rest)) = line.split_once('|') else {
        return Ok(None);
    };
    let Some((length, body)) = rest.split_once('|') else {
        return Ok(None);
    };
    let text = format!(in alloc;
        "HTTP/1.1 {status}\r\ncontent-type: application/json\r\ncontent-length: {length}\r\n\r\n{body}"
    )?;
    Ok(Some(text))
}

#[test]
fn answers(rt: HostRuntime) -> Result<(), Fail> {
    let alloc = rt.alloc();
    let texts = texts(alloc)?;
    assert_eq!(rt; texts.len(), ANSWERS.lines().count());
    for (text, line) in texts.iter().zip(ANSWERS.lines()) {
        let wanted = wanted(alloc, line)?.ok_or("a line of the table")?;
        assert!(rt; text.as_slice() == wanted.as_bytes(), "{line}");
    }
    Ok(())
}

fn refusal(alloc: Global, error: ErrorName) -> Result<Vec<u8>, AllocError> {
    text_of(alloc, &Answer::refused(error, More::nothing()))
}

#[test]
fn constants(rt: HostRuntime) -> Result<(), Fail> {
    let alloc = rt.alloc();
    let texts = [
        (ErrorName::BadHead, bad_head_text()),
        (ErrorName::BadLength, bad_length_text()),
        (ErrorName::Coding, coding_text()),
        (ErrorName::TooLarge, too_large_text()),
        (ErrorName::Memory, memory_text()),
    ];
    for (error, text) in texts {
        let written = refusal(alloc, error)?;
        assert!(rt; written.as_slice() == text, "{error:?}");
    }
    Ok(())
}
