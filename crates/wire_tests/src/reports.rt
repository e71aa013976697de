//! Worked envelopes.

use envelope_cmd::check::check;
use std::test::Fail;

#[test]
fn a_prepare_in_another_spelling(rt: HostRuntime) -> Result<(), Fail> {
    let text =
        "<e:Envelope xmlns:e='http://schemas.xmlsoap.org/soap/envelope/'><e:Header xmlns:w='http://www.w3.org/2005/08/addressing'><w:Action><![CDATA[http://docs.oasis-open.org/ws-tx/wsat/2006/06/Prepare]]></w:Action><w:To>http://n2.example/p/d/1-1</w:To></e:Header><!-- x --><e:Body><Prepare xmlns='http://docs.oasis-open.org/ws-tx/wsat/2006/06'/></e:Body></e:Envelope>";
    let printed = check(rt.alloc(), text.as_bytes(), "/")?;
    assert!(rt;
        printed.as_slice() == b"message Prepare\ntarget participant durable 1-1\n".as_slice()
    );
    Ok(())
}
