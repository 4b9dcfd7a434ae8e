//! Worked replies, as laws: the checker computes each.
ghost use Rattle.std.specs.Prelude.{◌≡◌, ◌++◌, codes, true, false};
ghost use Rattle.agent_events.specs.declared.reply.Refusal.{Refusal};
ghost use Rattle.agent_events.specs.declared.reply.Reply.{Reply};
ghost use Rattle.http_stream.specs.declared.fault.HttpFault.{HttpFault};
ghost use Rattle.agent_http.specs.Bytes.{bytes_of, fault_bytes};

/// The reply to an order, to a refusal, and to a fault that closes the connection.
pub fn reply_examples()
    ensures order { bytes_of
        (Reply.Order (record {
          account = 101;
          ref_no = 1;
          receipt = 1719838800;
          due = 1719864000;
        })) false
        ≡ codes "HTTP/1.1 200 OK\r\nContent-Type: application/json\r\nContent-Length: 85\r\n\r\n"
        ++ codes "{\"account\":\"101\",\"due\":\"1719864000\",\"receipt\":\"1719838800\","
        ++ codes "\"ref\":\"1\",\"reply\":\"order\"}" }
    ensures refused { bytes_of (Reply.Refused (Refusal.SheetOutOfTurn 1719864000 1)) true
        ≡ codes "HTTP/1.1 409 Conflict\r\nContent-Type: application/json\r\nContent-Length: 60\r\n"
        ++ codes "Connection: close\r\n\r\n"
        ++ codes "{\"code\":\"12\",\"reply\":\"no\",\"second\":\"1\",\"value\":\"1719864000\"}" }
    ensures fault { fault_bytes HttpFault.S503 false
        ≡ codes "HTTP/1.1 503 Service Unavailable\r\nContent-Type: application/json\r\n"
        ++ codes "Content-Length: 30\r\n\r\n"
        ++ codes "{\"code\":\"503\",\"reply\":\"fault\"}" }
{}
